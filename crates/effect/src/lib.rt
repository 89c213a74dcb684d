// What one instruction comes to, a Result: its effect where it retires, or its trap. The meaning is in specs/.
#![tactic(auto)]

use reserve::Notice;

// A retired instruction: up to two registers written, the first one first, the next pc, and what reservations learn. Where none is written rd is x0 and no
// None: an instruction itself says so by x0, and setting it is no write.
#[derive(Clone, Copy)]
pub struct Effect {
    pub rd: usize,
    pub value: u64,
    pub rd2: usize,
    pub value2: u64,
    pub next: u64,
    pub notice: Notice,
}

// What a trap gives: the cause and the value beside it. Nothing is changed.
#[derive(Clone, Copy, PartialEq, Eq)]
pub struct Trap {
    pub cause: u64,
    pub value: u64,
}
