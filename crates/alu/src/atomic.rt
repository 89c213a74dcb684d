// The read-modify-write operations of the atomic instructions.
ghost use Rattle.std.specs.Prelude.{◌≡◌, ◌+◌, ◌^◌, ◌<◌, ◌≤◌, length, int_lt};
ghost use Rattle.word.specs.Word.{to_int};
ghost use Rattle.word.specs.Bytes.{le, to_le};
ghost use Rattle.word.specs.Memory.{part, splice};
ghost use Rattle.isa.specs.Width.{bits_of, bytes_of};
ghost use Rattle.alu.specs.Amo.{amo_of};

use crate::integer::add;
use isa::{AmoOp, Width};
use word::bytes::{load_le, store_le};

// Whether a is less than b as the i32 or i64 that their bits mean.
#[tactic(auto, unfolding(word::specs::Word::to_int))]
fn less_at(w: Width, a: u64, b: u64) -> bool
    requires { (a < 2 ^ bits_of w) × (b < 2 ^ bits_of w) }
    ensures { result ≡ int_lt (to_int (bits_of w) a) (to_int (bits_of w) b) }
{
    match w {
        Width::Word => (a as u32).cast_signed() < (b as u32).cast_signed(),
        Width::Double => a.cast_signed() < b.cast_signed(),
    }
}

// What the operation leaves in memory.
#[tactic(auto, unfolding(crate::specs::Amo::amo_of, crate::specs::Amo::min_of, crate::specs::Amo::max_of))]
fn amo(op: AmoOp, w: Width, old: u64, operand: u64) -> u64
    requires { (old < 2 ^ bits_of w) × (operand < 2 ^ bits_of w) }
    ensures { result ≡ amo_of op (bits_of w) old operand }
{
    match op {
        AmoOp::Swap => operand,
        AmoOp::Add => add(old, operand, isa::bits_of(w)),
        AmoOp::Xor => old ^ operand,
        AmoOp::And => old & operand,
        AmoOp::Or => old | operand,
        AmoOp::Min => if less_at(w, old, operand) {
            old
        } else {
            operand
        },
        AmoOp::Max => if less_at(w, old, operand) {
            operand
        } else {
            old
        },
        AmoOp::Minu => old.min(operand),
        AmoOp::Maxu => old.max(operand),
    }
}

// The read-modify-write of the lent bytes: their old number.
fn modify(bytes: &mut [u8], op: AmoOp, w: Width, operand: u64) -> u64
    requires bytes_len { length bytes.old ≡ bytes_of w }
    requires operand_bound { operand < 2 ^ bits_of w }
    ensures value { result ≡ le bytes.old }
    ensures bytes_after { bytes.new ≡ to_le (bytes_of w) (amo_of op (bits_of w) (le bytes.old) operand) }
{
    let old = load_le(bytes);
    store_le(bytes, amo(op, w, old, operand));
    old
}

// The same in a memory: only the bytes of the width from at on are lent.
pub fn modify_at(mem: &mut [u8], at: usize, op: AmoOp, w: Width, operand: u64) -> u64
    requires w_in_bounds { at + bytes_of w ≤ length mem.old }
    requires operand_bound { operand < 2 ^ bits_of w }
    ensures value { result ≡ le (part mem.old at (bytes_of w)) }
    ensures mem_after { mem.new
        ≡ splice mem.old at (to_le (bytes_of w) (amo_of op (bits_of w) (le (part mem.old at (bytes_of w))) operand)) }
{
    let n = isa::bytes_of(w);
    modify(&mut mem[at..at + n], op, w, operand)
}
