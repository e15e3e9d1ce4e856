// A name for each opcode, for the matches that carry it out: their proofs hold each to its instruction. They are
// numbers and no enum: a word's first byte may be any of 256, and to make an enum of it would take a match of its own
// at each fetch, before the engine's match over the same number.

pub const HALT: u32 = 0;

pub const LOADC: u32 = 1;

pub const LOAD: u32 = 2;

pub const STORE: u32 = 3;

pub const LOADR: u32 = 4;

pub const STORER: u32 = 5;

pub const ALLOC: u32 = 6;

pub const POP: u32 = 7;

pub const DUP: u32 = 8;

pub const ADD: u32 = 9;

pub const SUB: u32 = 10;

pub const MUL: u32 = 11;

pub const DIV: u32 = 12;

pub const MOD: u32 = 13;

pub const NEG: u32 = 14;

pub const EQ: u32 = 15;

pub const NEQ: u32 = 16;

pub const LESS: u32 = 17;

pub const LEQ: u32 = 18;

pub const NOT: u32 = 19;

pub const JUMP: u32 = 20;

pub const JUMPZ: u32 = 21;

pub const MARK: u32 = 22;

pub const CALL: u32 = 23;

pub const RETURN: u32 = 24;

pub const NEW: u32 = 25;

pub const CREATE: u32 = 26;

pub const YIELD: u32 = 27;

pub const EXIT: u32 = 28;

pub const JOIN: u32 = 29;

pub const FINALIZE: u32 = 30;

pub const NEWMUTEX: u32 = 31;

pub const LOCK: u32 = 32;

pub const UNLOCK: u32 = 33;

pub const NEWCOND: u32 = 34;

pub const WAIT: u32 = 35;

pub const SIGNAL: u32 = 36;

pub const BROADCAST: u32 = 37;

pub const NEWSEMA: u32 = 38;

pub const UP: u32 = 39;

pub const DOWN: u32 = 40;
