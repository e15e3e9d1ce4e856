// A card as the engine runs it: the code part of its image, and its instructions as words where there is room for them.
ghost use Rattle.std.specs.Prelude.{◌≡◌, ◌≤◌, ◌<◌, MatchOption, length};
ghost use Rattle.card.specs.Code.{instruction_at, words_of};
ghost use Rattle.engine.specs.Accepted.{Carded};

use card::Instruction;

// A machine's instruction is fetched from `words` in the loop of one thread, and from `code` elsewhere.
#[derive(Clone, Copy)]
pub struct Card<'a> {
    pub code: &'a [u8],
    pub words: &'a [u32],
    // The card was accepted,
    pub ghost carded: { Carded code.now },
    // and its words are all there, or none is.
    pub ghost unpacked: { 0 < length words.now → words.now ≡ words_of code.now },
}

impl<'a> Card<'a> {
    // Unpacks a code part into `words`, where there is room for it; else each instruction is taken from the code part.
    pub fn new(code: &'a [u8], words: &'a mut [u32]) -> Card<'a>
        requires { Carded code.now }
        ensures { result.code.now ≡ code.now }
    {
        let unpacked = card::unpack(code, code.len() / 4, words);
        Card {
            code,
            words: &words[..unpacked],
        }
    }

    // The number of instructions.
    pub fn count(&self) -> usize
        ensures { result ≡ length (words_of self.now.code.now) }
    {
        self.code.len() / 4
    }

    // The instruction at `pc`, if there is one.
    pub fn at(&self, pc: usize) -> Option<Instruction>
        ensures { MatchOption result (length (words_of self.now.code.now) ≤ pc)
            (λ i. (pc < length (words_of self.now.code.now)) × (i ≡ instruction_at self.now.code.now pc)) }
    {
        if self.count() <= pc {
            return None;
        }
        Some(card::fetch(self.code, pc))
    }
}
