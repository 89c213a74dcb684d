// The class AMO: the words of A and Zacas.
ghost use Rattle.std.specs.Prelude.{◌≡◌, ◌&&◌};
ghost use Rattle.isa.specs.Fields.{rd_of, rs2_of};
ghost use Rattle.isa.specs.Decode.{atomic_as, is_even};
ghost use Rattle.isa.specs.Tables.{refuses, atomic_in};

use crate::{Atomic, AtomicOp, Instr, Width, fields, tables};

fn atomic_as(op: AtomicOp, width: Width, word: u32) -> Instr
    ensures { result ≡ atomic_as word op width }
{
    Instr::Amo(Atomic {
        op,
        width,
        aq: (word >> 26) % 2 == 1,
        rl: (word >> 25) % 2 == 1,
        rd: fields::rd(word),
        rs1: fields::rs1(word),
        rs2: fields::rs2(word),
    })
}

// The rd and the rs2 of an AMOCAS.Q each name a pair, and are even.
fn even_pair(word: u32) -> bool
    ensures { result ≡ is_even (rd_of word) && is_even (rs2_of word) }
{
    (fields::rd(word) % 2 == 0) & (fields::rs2(word) % 2 == 0)
}

// An LR with rs2 not 0, or an AMOCAS.Q with an odd rd or rs2.
fn refuses(op: AtomicOp, word: u32) -> bool
    ensures { result ≡ refuses op word }
{
    match op {
        AtomicOp::Lr => fields::rs2(word) != 0,
        AtomicOp::CasPair => !even_pair(word),
        _ => false,
    }
}

pub fn atomic(word: u32) -> Instr
    ensures { result ≡ atomic_in word }
{
    match tables::atomic_entry(word) {
        Some((op, width)) if !refuses(op, word) => atomic_as(op, width, word),
        _ => Instr::Illegal,
    }
}
