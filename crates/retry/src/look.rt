// What the checker sees of a word.
ghost use Rattle.std.specs.Prelude.{◌≡◌};
ghost use Rattle.retry.specs.Loop.{atomic_view, fields_of, view_of, looked_at, permitted_class};
ghost use Rattle.isa.specs.Narrow.{decode_at};
ghost use Rattle.settings.specs.Settings.{xlen_of};

use crate::View;
use isa::class::{Class, class_of};
use isa::{Atomic, AtomicOp, Instr};
use settings::{Settings, jalr_permitted};

// The classes of 01's reason 2, and that of JALR where the version permits it.
fn permitted(settings: Settings, class: Option<Class>) -> bool
    ensures { result ≡ permitted_class settings class }
{
    match class {
        Some(Class::Lui | Class::Auipc | Class::Jal | Class::Branch) => true,
        Some(Class::Op | Class::OpImm | Class::Op32 | Class::OpImm32) => true,
        Some(Class::Jalr) => jalr_permitted(settings),
        _ => false,
    }
}

// The classes with a word that is no reason by itself at some place: the permitted ones, and that of LR and SC.
fn looked_at(settings: Settings, class: Option<Class>) -> bool
    ensures { result ≡ looked_at settings class }
{
    matches!(class, Some(Class::Amo)) || permitted(settings, class)
}

fn atomic(a: Atomic) -> View
    ensures { result ≡ atomic_view a.op a }
{
    let width = isa::bytes_of(a.width);
    match a.op {
        AtomicOp::Lr => View::Lr {
            rd: a.rd,
            rs1: a.rs1,
            width,
        },
        AtomicOp::Sc => View::Sc { rs1: a.rs1, width },
        _ => View::Other,
    }
}

// An instruction by its rd and, of a JAL or a branch, its offset. Which instructions are permitted is left to the table of classes.
#[tactic(auto, unfolding(crate::specs::Loop::fields_of))]
fn fields(i: Instr) -> View
    ensures { result ≡ fields_of i }
{
    match i {
        Instr::Lui { rd, .. }
        | Instr::Auipc { rd, .. }
        | Instr::Load { rd, .. }
        | Instr::OpImm { rd, .. }
        | Instr::OpImm32 { rd, .. }
        | Instr::Op { rd, .. }
        | Instr::Op32 { rd, .. }
        | Instr::Fence { rd, .. }
        | Instr::Jalr { rd, .. } => View::Plain { rd },
        Instr::Jal { rd, imm } => View::Jump { rd, offset: imm },
        Instr::Branch { imm, .. } => View::Branch { offset: imm },
        Instr::Amo(a) => atomic(a),
        _ => View::Other,
    }
}

#[tactic(auto, using(crate::proofs::ClassLaws::looked, crate::proofs::ClassLaws::passed_over))]
pub fn look(settings: Settings, word: u32) -> View
    ensures { result ≡ view_of settings (decode_at (xlen_of settings) word) }
{
    if looked_at(settings, class_of(word)) {
        fields(isa::decode_at(word, settings::xlen(settings)))
    } else {
        View::Other
    }
}
