// The opcodes: their table, and a name for each number. Inner: the card's check, its text and the machine look there.
#![tactic(auto)]

pub mod opcode;
mod table;

pub use table::{COUNT, Entry, Rule, WIDTH, all, entry_at, rules};
