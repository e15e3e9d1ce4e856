// The table of opcodes: a line for each, in the order of their numbers.
ghost use Rattle.std.specs.Prelude.{◌<◌, length, ◌≡◌};
ghost use Rattle.opcodes.specs.Page.{page};
ghost use Rattle.opcodes.specs.Table.{AreRules, IsPage, entry_of};

// Which operands an opcode takes.
#[derive(Clone, Copy)]
pub enum Rule {
    FromTo(i32, i32),
    // An instruction of the card, which has n of them.
    ZeroToNMinus1,
    // 0 alone: it has no operand.
    Zero,
}

// The bytes of a name, with at least one space behind it.
pub const WIDTH: usize = 10;

#[derive(Clone, Copy)]
pub struct Entry {
    pub number: u32,
    pub name: [u8; WIDTH],
    pub rule: Rule,
}

// A line of the table: a constant may not call a function.
macro_rules! entry {
    ($number:literal, $name:literal, $rule:expr) => {
        Entry {
            number: $number,
            name: *$name,
            rule: $rule,
        }
    };
}

pub const COUNT: usize = 41;

const TABLE: [Entry; COUNT] = [
    entry!(0, b"halt      ", Rule::Zero),
    entry!(1, b"loadc     ", Rule::FromTo(-8_388_608, 8_388_607)),
    entry!(2, b"load      ", Rule::Zero),
    entry!(3, b"store     ", Rule::Zero),
    entry!(4, b"loadr     ", Rule::FromTo(-128, 127)),
    entry!(5, b"storer    ", Rule::FromTo(-128, 127)),
    entry!(6, b"alloc     ", Rule::FromTo(0, 127)),
    entry!(7, b"pop       ", Rule::Zero),
    entry!(8, b"dup       ", Rule::Zero),
    entry!(9, b"add       ", Rule::Zero),
    entry!(10, b"sub       ", Rule::Zero),
    entry!(11, b"mul       ", Rule::Zero),
    entry!(12, b"div       ", Rule::Zero),
    entry!(13, b"mod       ", Rule::Zero),
    entry!(14, b"neg       ", Rule::Zero),
    entry!(15, b"eq        ", Rule::Zero),
    entry!(16, b"neq       ", Rule::Zero),
    entry!(17, b"less      ", Rule::Zero),
    entry!(18, b"leq       ", Rule::Zero),
    entry!(19, b"not       ", Rule::Zero),
    entry!(20, b"jump      ", Rule::ZeroToNMinus1),
    entry!(21, b"jumpz     ", Rule::ZeroToNMinus1),
    entry!(22, b"mark      ", Rule::Zero),
    entry!(23, b"call      ", Rule::Zero),
    entry!(24, b"return    ", Rule::Zero),
    entry!(25, b"new       ", Rule::Zero),
    entry!(26, b"create    ", Rule::Zero),
    entry!(27, b"yield     ", Rule::Zero),
    entry!(28, b"exit      ", Rule::Zero),
    entry!(29, b"join      ", Rule::Zero),
    entry!(30, b"finalize  ", Rule::Zero),
    entry!(31, b"newmutex  ", Rule::Zero),
    entry!(32, b"lock      ", Rule::Zero),
    entry!(33, b"unlock    ", Rule::Zero),
    entry!(34, b"newcond   ", Rule::Zero),
    entry!(35, b"wait      ", Rule::Zero),
    entry!(36, b"signal    ", Rule::Zero),
    entry!(37, b"broadcast ", Rule::Zero),
    entry!(38, b"newsema   ", Rule::Zero),
    entry!(39, b"up        ", Rule::Zero),
    entry!(40, b"down      ", Rule::Zero),
];

// The table, for whoever looks at several of its lines: a constant array is made anew wherever it is named.
pub fn all() -> [Entry; COUNT]
    ensures { IsPage result }
{
    TABLE
}

// The line of an opcode.
pub fn entry_at(opcode: usize) -> Entry
    requires { opcode < length page }
    ensures { result ≡ entry_of opcode }
{
    all()[opcode]
}

// The rules alone, for whoever checks many operands: the compiler makes a short array of them, without the names. By
// `map` over the table it doesn't: it then copies the table in each call, and a card's check takes 160 ns longer.
pub fn rules() -> [Rule; COUNT]
    ensures { AreRules result }
{
    let table = all();
    let mut rules = [Rule::Zero; COUNT];
    for k in 0..COUNT {
        rules[k] = table[k].rule;
    }
    rules
}
