// What is printed for a card. A text that can't be written is missing from what is compared.

// The runner's line of an image, behind a label.
pub fn image_line(rt: &impl Print, label: &str, image: &[u8]) {
    let _ = print!(rt; "{label}");
    let _ = print::line(rt, image);
}

// The runner's line of the card with these global cells and instructions. What the writer doesn't take is no session.
pub fn card_line(rt: &impl Print, cells: usize, list: &[u32]) {
    let mut image = [0u8; print::LONGEST_IMAGE];
    match writer::write(cells, list, &mut image) {
        Ok(size) => {
            if let Ok(written) = print::start(&image, size) {
                let _ = print::line(rt, written);
            }
        }
        Err(refusal) => {
            let _ = println!(rt; "not written {} {}", refusal.reason.number(), refusal.place);
        }
    }
}
