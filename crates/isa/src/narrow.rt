// What RV32I, A and Zacas have of an instruction.
ghost use Rattle.std.specs.Prelude.{◌≡◌, cond};
ghost use Rattle.isa.specs.Narrow.{kept_load, kept_store, kept_imm, pairs, lacks, paired_if, narrowed};

use crate::{AluOp, Atomic, AtomicOp, Instr, LoadOp, StoreOp, Width};

pub fn kept_load(op: LoadOp) -> bool
    ensures { result ≡ kept_load op }
{
    !matches!(op, LoadOp::Ld | LoadOp::Lwu)
}

pub fn kept_store(op: StoreOp) -> bool
    ensures { result ≡ kept_store op }
{
    !matches!(op, StoreOp::Sd)
}

// A shift's amount has 5 bits.
pub fn kept_imm(op: AluOp, imm: u64) -> bool
    ensures { result ≡ kept_imm op imm }
{
    match op {
        AluOp::Sll | AluOp::Srl | AluOp::Sra => imm <= 31,
        _ => true,
    }
}

// Whether an atomic instruction becomes a pair of words: AMOCAS.D, whose registers are even.
pub fn pairs(a: Atomic) -> bool
    ensures { result ≡ pairs a }
{
    (a.width == Width::Double) & ((a.op == AtomicOp::Cas) & ((a.rd % 2 == 0) & (a.rs2 % 2 == 0)))
}

// Whether RV32 lacks an instruction: of the atomic ones of width D it has AMOCAS.D alone.
pub fn lacks(i: Instr) -> bool
    ensures { result ≡ lacks i }
{
    match i {
        Instr::Load { op, .. } => !kept_load(op),
        Instr::Store { op, .. } => !kept_store(op),
        Instr::OpImm { op, imm, .. } => !kept_imm(op, imm),
        Instr::OpImm32 { .. } | Instr::Op32 { .. } => true,
        Instr::Amo(a) => double_lacked(a),
        _ => false,
    }
}

fn double_lacked(a: Atomic) -> bool
    ensures { result ≡ lacks (Instr.Amo a) }
{
    (a.width == Width::Double) & !pairs(a)
}

// What an instruction is where registers have 32 bits.
pub fn narrow(i: Instr) -> Instr
    ensures { result ≡ narrowed i }
{
    if lacks(i) {
        return Instr::Illegal;
    }
    match i {
        Instr::Amo(a) => Instr::Amo(paired_if(pairs(a), a)),
        _ => i,
    }
}

// AMOCAS.D is of a pair of words there.
fn paired_if(paired: bool, a: Atomic) -> Atomic
    ensures { result ≡ paired_if paired a }
{
    Atomic {
        op: op_if(paired, a),
        width: width_if(paired, a),
        ..a
    }
}

pub fn op_if(paired: bool, a: Atomic) -> AtomicOp
    ensures { result ≡ cond paired AtomicOp.CasPair a.op }
{
    if paired { AtomicOp::CasPair } else { a.op }
}

pub fn width_if(paired: bool, a: Atomic) -> Width
    ensures { result ≡ cond paired Width.Word a.width }
{
    if paired { Width::Word } else { a.width }
}
