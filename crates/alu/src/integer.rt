// The operations of the integer registers on numbers of so many bits.
ghost use Rattle.std.specs.Prelude.{◌≡◌, ◌+◌, ◌-◌, ◌*◌, ◌%◌, ◌^◌, ◌<◌, ◌≤◌, int_lt};
ghost use Rattle.std.specs.Int.Signed.{shr_z};
ghost use Rattle.word.specs.Word.{to_int, of_int, Xlen};
ghost use Rattle.alu.specs.Alu.{alu_of};

use isa::AluOp;
use word::num::{from_i64, to_signed, wrap};

// The sum, modulo 2 to the width.
pub fn add(a: u64, b: u64, bits: u32) -> u64
    requires { bits ≤ 64 }
    ensures { result ≡ (a + b) % 2 ^ bits }
{
    wrap(a.wrapping_add(b), bits)
}

fn subtract(a: u64, b: u64, bits: u32) -> u64
    requires bits_bound { bits ≤ 64 }
    requires b_bound { b < 2 ^ bits }
    ensures { result ≡ (a + (2 ^ bits - b)) % 2 ^ bits }
{
    wrap(a.wrapping_sub(b), bits)
}

// How far a shift by b goes: at 32 and 64 bits, the 5 and 6 lowest bits of b. A mask each, and no division by a number that the compiler may not know.
fn amount(b: u64, bits: u32) -> u64
    requires { Xlen bits }
    ensures { (result ≡ b % bits) × (result < bits) }
{
    if bits == 32 { b % 32 } else { b % 64 }
}

fn shift_left(a: u64, by: u64, bits: u32) -> u64
    requires { (by < bits) × (bits ≤ 64) }
    ensures { result ≡ (a * 2 ^ by) % 2 ^ bits }
{
    wrap(a << by, bits)
}

// The shift right that fills with the sign.
fn shift_signed(a: u64, by: u64, bits: u32) -> u64
    requires by_lt_bits { (by < bits) × (bits ≤ 64) }
    requires a_bound { a < 2 ^ bits }
    ensures { result ≡ of_int bits (shr_z (to_int bits a) (2 ^ by)) }
{
    wrap(from_i64(to_signed(a, bits) >> by), bits)
}

// Whether a is less than b as signed numbers.
pub fn less(a: u64, b: u64, bits: u32) -> bool
    requires bits_nonzero { (0 < bits) × (bits ≤ 64) }
    requires a_bound { (a < 2 ^ bits) × (b < 2 ^ bits) }
    ensures { result ≡ int_lt (to_int bits a) (to_int bits b) }
{
    to_signed(a, bits) < to_signed(b, bits)
}

// The operation on two numbers of so many bits.
#[tactic(auto, using(word::proofs::WordLaws::xlen_bounds), unfolding(crate::specs::Alu::alu_of))]
pub fn operate(op: AluOp, bits: u32, a: u64, b: u64) -> u64
    requires xlen { Xlen bits }
    requires a_bound { (a < 2 ^ bits) × (b < 2 ^ bits) }
    ensures { result ≡ alu_of op bits a b }
{
    match op {
        AluOp::Add => add(a, b, bits),
        AluOp::Sub => subtract(a, b, bits),
        AluOp::Sll => shift_left(a, amount(b, bits), bits),
        AluOp::Slt => u64::from(less(a, b, bits)),
        AluOp::Sltu => u64::from(a < b),
        AluOp::Xor => a ^ b,
        AluOp::Srl => a >> amount(b, bits),
        AluOp::Sra => shift_signed(a, amount(b, bits), bits),
        AluOp::Or => a | b,
        AluOp::And => a & b,
    }
}
