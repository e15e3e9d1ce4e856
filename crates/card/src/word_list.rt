// The instructions of a card as words: a list of them, or the code part of an image, four bytes each. Inner.
ghost use Rattle.std.specs.Prelude.{◌≡◌, ◌<◌, ℕ, List, length, get_or};
ghost use Rattle.card.specs.Code.{words_of};

pub trait WordList {
    // The words that the value stands for.
    ghost words: { Self → List ℕ };

    fn len(&self) -> usize
        ensures { result ≡ length (words self.now) };

    fn word(&self, index: usize) -> u32
        requires { index < length (words self.now) }
        ensures { result ≡ get_or (words self.now) index 0 };
}

impl WordList for &[u32] {
    ghost words = { λ list. list.now };

    fn len(&self) -> usize {
        <[u32]>::len(self)
    }

    fn word(&self, index: usize) -> u32 {
        self[index]
    }
}

// The code part of an image.
#[derive(Clone, Copy)]
pub struct CodeWords<'a>(pub &'a [u8]);

impl WordList for CodeWords<'_> {
    ghost words = { λ code. words_of code.0.now };

    fn len(&self) -> usize {
        self.0.len() / 4
    }

    fn word(&self, index: usize) -> u32 {
        instruction::word_at(self.0, 4 * index)
    }
}
