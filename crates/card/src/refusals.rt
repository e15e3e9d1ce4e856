// What is refused, where, and its number in the papers' tables.
ghost use Rattle.std.specs.Prelude.{◌≡◌, true, false, MatchResult};
ghost use Rattle.card.specs.Result.{number};

// Why something is refused, in the order of the tables.
#[derive(Clone, Copy, Debug, PartialEq, Eq)]
pub enum Reason {
    // The image is too short, or its length field is wrong.
    Length,
    Version,
    // The global cells or the number of instructions are out of range, or the length doesn't fit them.
    Sizes,
    Opcode,
    Operand,
    // The store has another size.
    Store,
    // The tables or values are not well formed; at set-up, have another size.
    Tables,
    // The writer's buffer has no room for the image.
    NoRoom,
    // A text's header has another form.
    TextHeader,
    // A line of it has.
    TextLine,
    // The address of such a line is out of sequence.
    TextAddress,
    // No room for the line of a listing, or for the image of a text.
    TextNoRoom,
}

impl Reason {
    pub fn number(self) -> usize
        ensures { result ≡ number self }
    {
        match self {
            Reason::Length => 1,
            Reason::Version => 2,
            Reason::Sizes => 3,
            Reason::Opcode => 4,
            Reason::Operand => 5,
            Reason::Store => 6,
            Reason::Tables => 7,
            Reason::NoRoom => 8,
            Reason::TextHeader => 40,
            Reason::TextLine => 41,
            Reason::TextAddress => 42,
            Reason::TextNoRoom => 43,
        }
    }
}

#[derive(Clone, Copy, Debug, PartialEq, Eq)]
pub struct Refusal {
    pub reason: Reason,
    pub place: usize,
}

// Refuses what is wrong, for this reason at this place.
pub fn refuse_if(wrong: bool, reason: Reason, place: usize) -> Result<(), Refusal>
    ensures { MatchResult result (λ _. wrong ≡ false)
        (λ r. (wrong ≡ true) × (r ≡ record { reason = reason; place = place })) }
{
    if wrong {
        return Err(Refusal { reason, place });
    }
    Ok(())
}
