// A card's text and the way back, on buffers that a C program lends.
ghost use Rattle.leprahoon.specs.Lists.{ImportedList, ListedList};

use lists::list_of_result;

// Writes a line of a card's text: line 0 is the header, line i + 1 that of instruction i.
#[unsafe(no_mangle)]
pub extern "C" fn leprahoon_list(image: &[u8], line: usize, out: &mut [u8], report: &mut [usize; 3])
    ensures { ListedList image.now line out.old out.new report.new }
{
    *report = list_of_result(lister::list_line(image, line, out));
}

// Writes the image of the card whose text is given.
#[unsafe(no_mangle)]
pub extern "C" fn leprahoon_import(text: &[u8], out: &mut [u8], report: &mut [usize; 3])
    ensures { ImportedList text.now out.old out.new report.new }
{
    *report = list_of_result(importer::import(text, out));
}
