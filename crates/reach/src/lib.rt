// What a step may change, saved before it and put back: the register that a row shows of it and the one behind it, the pc, the reservations, and at
// most 16 bytes, from one address on.
#![tactic(auto)]

ghost use Rattle.std.specs.Prelude.{◌≡◌, ◌+◌, ◌%◌, ◌<◌, ◌≤◌, length, set};
ghost use Rattle.word.specs.Bytes.{le, to_le};
ghost use Rattle.word.specs.Memory.{part, splice};
ghost use Rattle.effect.specs.Execute.{reg_at};
ghost use Rattle.model.specs.Act.{set_reg};
ghost use Rattle.reach.specs.Reach.{window_of, reach_in};
ghost use Rattle.reach.specs.Back.{saved_at, saved_of, put_back};

use alu::integer::add;
use dispatch::reg;
use isa::class::{Class, class_of};
use isa::fields;
use machine::State;
use model::advance::set_reg;
use reserve::Reservation;
use word::bytes::{load_at, store_at};

// The register that a row shows, and the address from which on the step may write.
#[derive(Clone, Copy)]
pub struct Reach {
    pub rd: usize,
    pub at: u64,
}

// What a step of a hart may change, as it was: rd and the register behind it, the pc, the reservations, and 16 bytes of memory, from at on. They are two
// numbers, low and high: so they are saved and put back by two loads and two stores of 8 bytes, with no copy of a buffer.
#[derive(Clone, Copy)]
pub struct Saved {
    pub hart: usize,
    pub rd: usize,
    pub first: u64,
    pub second: u64,
    pub pc: u64,
    pub res: [Option<Reservation>; 8],
    pub at: usize,
    pub low: u64,
    pub high: u64,
}

// What hart h's word may change, by its class, where registers have xlen bits. Decoding it here too would cost as much as all else of a row. Where a word
// writes nothing, at is 0, since any window of memory does there.
#[tactic(auto, unfolding(crate::specs::Reach::reach_in))]
pub fn reach_in(xlen: u32, word: u32, x: &[u64; 256], h: usize) -> Reach
    requires { (h < 8) × (xlen ≤ 64) }
    ensures { result ≡ reach_in xlen word (reg_at x.now h) }
{
    match class_of(word) {
        Some(Class::Store) => Reach {
            rd: 0,
            at: add(reg(x, h, fields::rs1(word)), fields::imm_s(word), xlen),
        },
        Some(Class::Amo) => Reach {
            rd: fields::rd(word),
            at: reg(x, h, fields::rs1(word)),
        },
        Some(Class::MiscMem | Class::Branch) => Reach { rd: 0, at: 0 },
        _ => Reach {
            rd: fields::rd(word),
            at: 0,
        },
    }
}

// Where 16 bytes of a memory start that hold those from a on. That there are 16 is a clause here and below: it is a fact of a place and a memory.
#[tactic(auto, using(reserve::proofs::RangeLaws::inside_of_lem))]
pub fn window(base: u64, len: usize, a: u64) -> usize
    requires { 16 ≤ len }
    ensures { (result ≡ window_of base len a) × (result + 16 ≤ len) }
{
    if reserve::inside(base, len as u64, a, 1) {
        ((a - base) as usize).min(len - 16)
    } else {
        0
    }
}

// 16 bytes of memory, as two numbers.
#[derive(Clone, Copy)]
pub struct Sixteen {
    pub low: u64,
    pub high: u64,
}

// Those from at on, wherever they lie.
pub fn sixteen_at(mem: &[u8], at: usize) -> Sixteen
    requires { at + 16 ≤ length mem.now }
    ensures { result ≡ record { low = le (part mem.now at 8); high = le (part mem.now (at + 8) 8) } }
{
    Sixteen {
        low: load_at(mem, at, 8),
        high: load_at(mem, at + 8, 8),
    }
}

// 16 bytes put there.
pub fn put_sixteen(mem: &mut [u8], at: usize, bytes: Sixteen)
    requires { at + 16 ≤ length mem.old }
    ensures { mem.new ≡ splice (splice mem.old at (to_le 8 bytes.low)) (at + 8) (to_le 8 bytes.high) }
{
    store_at(mem, at, 8, bytes.low);
    store_at(mem, at + 8, 8, bytes.high);
}

// Of hart h, register rd and the one behind it, the pc, the reservations, and 16 bytes of memory, wherever they lie.
pub fn save_at(s: &State, h: usize, rd: usize, at: usize, mem: &[u8]) -> Saved
    requires { (h < 8) × (at + 16 ≤ length mem.now) }
    ensures { result ≡ saved_at at (record { state = s.now; mem = mem.now }) h rd }
{
    let bytes = sixteen_at(mem, at);
    Saved {
        hart: h,
        rd,
        first: reg(&s.x, h, rd),
        second: reg(&s.x, h, rd % 32 + 1),
        pc: s.pc[h],
        res: s.res,
        at,
        low: bytes.low,
        high: bytes.high,
    }
}

// What the word may change that hart h is to step on.
#[tactic(auto, using(settings::proofs::SettingsLaws::xlen_is, word::proofs::WordLaws::xlen_bounds), unfolding(crate::specs::Back::saved_of))]
pub fn save(s: &State, h: usize, word: u32, base: u64, mem: &[u8]) -> Saved
    requires { (h < 8) × (16 ≤ length mem.now) }
    ensures value { result ≡ saved_of base (record { state = s.now; mem = mem.now }) h word }
    ensures room { result.at + 16 ≤ length mem.now }
{
    let reach = reach_in(settings::xlen(s.settings), word, &s.x, h);
    let at = window(base, mem.len(), reach.at);
    save_at(s, h, reach.rd, at, mem)
}

// Registers rd and the one behind it, and the pc, of hart h.
pub fn put_hart_back(
    x: &mut [u64; 256],
    pc: &mut [u64; 8],
    h: usize,
    rd: usize,
    first: u64,
    second: u64,
    at: u64,
)
    requires { h < 8 }
    ensures x_after { x.new ≡ set_reg h (rd % 32 + 1) second (set_reg h rd first x.old) }
    ensures pc_after { pc.new ≡ set pc.old h at }
{
    set_reg(x, h, rd, first);
    set_reg(x, h, rd % 32 + 1, second);
    pc[h] = at;
}

// All that is not saved stays.
#[tactic(auto, unfolding(crate::specs::Back::put_back))]
pub fn put_back(s: &mut State, mem: &mut [u8], k: &Saved)
    requires { (k.now.hart < 8) × (k.now.at + 16 ≤ length mem.old) }
    ensures { record { state = s.new; mem = mem.new } ≡ put_back k.now (record { state = s.old; mem = mem.old }) }
{
    put_hart_back(&mut s.x, &mut s.pc, k.hart, k.rd, k.first, k.second, k.pc);
    s.res = k.res;
    let bytes = Sixteen {
        low: k.low,
        high: k.high,
    };
    put_sixteen(mem, k.at, bytes);
}
