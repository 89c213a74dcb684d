// The classes of RV64I.
ghost use Rattle.std.specs.Prelude.{◌≡◌};
ghost use Rattle.isa.specs.Fields.{bits, rd_of, rs1_of, imm_i};
ghost use Rattle.isa.specs.Decode.{lui_of, auipc_of, jal_of, branch_as, load_as, store_as, system_of, shift_as, op_imm_as, shift32_as, op_as, op32_as};
ghost use Rattle.isa.specs.Tables.{by_funct7};
ghost use Rattle.isa.specs.declared.Instr.TheVariants.{Jalr, OpImm32, Fence};
ghost use Rattle.isa.specs.declared.AluOp.TheVariants.{Add};

use crate::{AluOp, BranchOp, Instr, LoadOp, StoreOp, fields};

pub fn lui(word: u32) -> Instr
    ensures { result ≡ lui_of word }
{
    Instr::Lui {
        rd: fields::rd(word),
        imm: fields::imm_u(word),
    }
}

pub fn auipc(word: u32) -> Instr
    ensures { result ≡ auipc_of word }
{
    Instr::Auipc {
        rd: fields::rd(word),
        imm: fields::imm_u(word),
    }
}

pub fn jal(word: u32) -> Instr
    ensures { result ≡ jal_of word }
{
    Instr::Jal {
        rd: fields::rd(word),
        imm: fields::imm_j(word),
    }
}

pub fn jalr(word: u32) -> Instr
    ensures { result ≡ Jalr (rd_of word) (rs1_of word) (imm_i word) }
{
    Instr::Jalr {
        rd: fields::rd(word),
        rs1: fields::rs1(word),
        imm: fields::imm_i(word),
    }
}

pub fn branch(op: BranchOp, word: u32) -> Instr
    ensures { result ≡ branch_as word op }
{
    Instr::Branch {
        op,
        rs1: fields::rs1(word),
        rs2: fields::rs2(word),
        imm: fields::imm_b(word),
    }
}

pub fn load(op: LoadOp, word: u32) -> Instr
    ensures { result ≡ load_as word op }
{
    Instr::Load {
        op,
        rd: fields::rd(word),
        rs1: fields::rs1(word),
        imm: fields::imm_i(word),
    }
}

pub fn store(op: StoreOp, word: u32) -> Instr
    ensures { result ≡ store_as word op }
{
    Instr::Store {
        op,
        rs1: fields::rs1(word),
        rs2: fields::rs2(word),
        imm: fields::imm_s(word),
    }
}

pub fn op_imm(op: AluOp, word: u32) -> Instr
    ensures { result ≡ op_imm_as op word }
{
    Instr::OpImm {
        op,
        rd: fields::rd(word),
        rs1: fields::rs1(word),
        imm: fields::imm_i(word),
    }
}

pub fn shift(op: AluOp, word: u32) -> Instr
    ensures { result ≡ shift_as word op }
{
    Instr::OpImm {
        op,
        rd: fields::rd(word),
        rs1: fields::rs1(word),
        imm: u64::from((word >> 20) % 64),
    }
}

pub fn add_imm_32(word: u32) -> Instr
    ensures { result ≡ OpImm32 Add (rd_of word) (rs1_of word) (imm_i word) }
{
    Instr::OpImm32 {
        op: AluOp::Add,
        rd: fields::rd(word),
        rs1: fields::rs1(word),
        imm: fields::imm_i(word),
    }
}

pub fn shift_32(op: AluOp, word: u32) -> Instr
    ensures { result ≡ shift32_as word op }
{
    Instr::OpImm32 {
        op,
        rd: fields::rd(word),
        rs1: fields::rs1(word),
        imm: u64::from((word >> 20) % 32),
    }
}

pub fn op(op: AluOp, word: u32) -> Instr
    ensures { result ≡ op_as word op }
{
    Instr::Op {
        op,
        rd: fields::rd(word),
        rs1: fields::rs1(word),
        rs2: fields::rs2(word),
    }
}

pub fn op_32(op: AluOp, word: u32) -> Instr
    ensures { result ≡ op32_as word op }
{
    Instr::Op32 {
        op,
        rd: fields::rd(word),
        rs1: fields::rs1(word),
        rs2: fields::rs2(word),
    }
}

pub fn fence(word: u32) -> Instr
    ensures { result ≡ Fence (rd_of word) (rs1_of word) (bits 31 20 word) }
{
    Instr::Fence {
        rd: fields::rd(word),
        rs1: fields::rs1(word),
        imm: u64::from(word >> 20),
    }
}

#[tactic(auto, unfolding(crate::specs::Decode::system_of))]
pub fn system(word: u32) -> Instr
    ensures { result ≡ system_of word }
{
    match word {
        0x00000073 => Instr::Ecall,
        0x00100073 => Instr::Ebreak,
        _ => Instr::Illegal,
    }
}

// The operation at a funct7, of the two that an entry has. Both tests are met by nearly every word, and which of the two operations it is is no branch,
// since that can hardly be foreseen where ADD and SUB mix.
pub fn by_funct7(first: AluOp, second: Option<AluOp>, funct7: u32) -> Option<AluOp>
    ensures { result ≡ by_funct7 first second funct7 }
{
    let (other, last) = match second {
        Some(op) => (op, 0x20),
        None => (first, 0),
    };
    let op = if funct7 == 0 { first } else { other };
    if (funct7 % 0x20 == 0) & (funct7 <= last) {
        Some(op)
    } else {
        None
    }
}
