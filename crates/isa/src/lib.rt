// The instructions of RV64I (without FENCE.I and CSRs), A 2.1 and Zacas, and their decoder.
#![tactic(auto)]

ghost use Rattle.std.specs.Prelude.{◌≡◌, ◌≤◌, ◌<◌};
ghost use Rattle.isa.specs.Width.{bits_of, bytes_of, pair_bytes};
ghost use Rattle.isa.specs.Decode.{decode_of};
ghost use Rattle.isa.specs.Narrow.{decode_at};
ghost use Rattle.isa.specs.Tables.{decide_of};

mod amo;
mod base;
pub mod class;
pub mod fields;
pub mod narrow;
mod tables;

use tables::Entry;

#[derive(Clone, Copy)]
pub enum LoadOp {
    Lb,
    Lh,
    Lw,
    Ld,
    Lbu,
    Lhu,
    Lwu,
}

#[derive(Clone, Copy)]
pub enum StoreOp {
    Sb,
    Sh,
    Sw,
    Sd,
}

#[derive(Clone, Copy)]
pub enum BranchOp {
    Eq,
    Ne,
    Lt,
    Ge,
    Ltu,
    Geu,
}

// The operations of OP, OP-IMM, OP-32 and OP-IMM-32.
#[derive(Clone, Copy)]
pub enum AluOp {
    Add,
    Sub,
    Sll,
    Slt,
    Sltu,
    Xor,
    Srl,
    Sra,
    Or,
    And,
}

// The operations of the nine AMOs.
#[derive(Clone, Copy, PartialEq, Eq)]
pub enum AmoOp {
    Swap,
    Add,
    Xor,
    And,
    Or,
    Min,
    Max,
    Minu,
    Maxu,
}

// CasPair compares and swaps a pair of registers: AMOCAS.Q, and AMOCAS.D of RV32.
#[derive(Clone, Copy, PartialEq, Eq)]
pub enum AtomicOp {
    Lr,
    Sc,
    Cas,
    CasPair,
    Rmw(AmoOp),
}

// The width of what an atomic instruction moves to or from one register.
#[derive(Clone, Copy, PartialEq, Eq)]
pub enum Width {
    Word,
    Double,
}

// An atomic operation with its width, both ordering bits and its registers.
#[derive(Clone, Copy)]
pub struct Atomic {
    pub op: AtomicOp,
    pub width: Width,
    pub aq: bool,
    pub rl: bool,
    pub rd: usize,
    pub rs1: usize,
    pub rs2: usize,
}

// imm is the immediate sign-extended to 64 bits, or the shift amount; of a FENCE, bits 31 to 20 as they stand.
#[derive(Clone, Copy)]
pub enum Instr {
    Illegal,
    Lui {
        rd: usize,
        imm: u64,
    },
    Auipc {
        rd: usize,
        imm: u64,
    },
    Jal {
        rd: usize,
        imm: u64,
    },
    Jalr {
        rd: usize,
        rs1: usize,
        imm: u64,
    },
    Branch {
        op: BranchOp,
        rs1: usize,
        rs2: usize,
        imm: u64,
    },
    Load {
        op: LoadOp,
        rd: usize,
        rs1: usize,
        imm: u64,
    },
    Store {
        op: StoreOp,
        rs1: usize,
        rs2: usize,
        imm: u64,
    },
    OpImm {
        op: AluOp,
        rd: usize,
        rs1: usize,
        imm: u64,
    },
    OpImm32 {
        op: AluOp,
        rd: usize,
        rs1: usize,
        imm: u64,
    },
    Op {
        op: AluOp,
        rd: usize,
        rs1: usize,
        rs2: usize,
    },
    Op32 {
        op: AluOp,
        rd: usize,
        rs1: usize,
        rs2: usize,
    },
    Fence {
        rd: usize,
        rs1: usize,
        imm: u64,
    },
    Ecall,
    Ebreak,
    Amo(Atomic),
}

// The bits of a register's part that an atomic of this width moves. Two arms here and in the two below, as their definitions have them: a product of one of
// them would be no shorter.
pub fn bits_of(w: Width) -> u32
    ensures { (result ≡ bits_of w) × (0 < result) × (result ≤ 64) }
{
    match w {
        Width::Word => 32,
        Width::Double => 64,
    }
}

// The same in bytes.
pub fn bytes_of(w: Width) -> usize
    ensures { (result ≡ bytes_of w) × (0 < result) × (result ≤ 8) }
{
    match w {
        Width::Word => 4,
        Width::Double => 8,
    }
}

// The bytes of a pair of such.
pub fn pair_bytes_of(w: Width) -> usize
    ensures { (result ≡ pair_bytes w) × (0 < result) × (result ≤ 16) }
{
    match w {
        Width::Word => 8,
        Width::Double => 16,
    }
}

// What a word is by its entry of the first table. funct6 with a bit 0 behind it stands for funct7 where a shift's amount has 6 bits.
#[tactic(auto, unfolding(crate::specs::Tables::decide_of))]
fn decide(e: Entry, word: u32) -> Instr
    ensures { result ≡ decide_of e word }
{
    let f7 = fields::funct7(word);
    match e {
        Entry::Illegal => Instr::Illegal,
        Entry::Load(op) => base::load(op, word),
        Entry::Fence => base::fence(word),
        Entry::OpImm(op) => base::op_imm(op, word),
        Entry::Shift(first, second) => base::by_funct7(
            first,
            second,
            fields::funct6(word) * 2,
        ).map_or(Instr::Illegal, |op| base::shift(op, word)),
        Entry::Auipc => base::auipc(word),
        Entry::AddImm32 => base::add_imm_32(word),
        Entry::Shift32(first, second) => base::by_funct7(first, second, f7).map_or(
            Instr::Illegal,
            |op| base::shift_32(op, word),
        ),
        Entry::Store(op) => base::store(op, word),
        Entry::Amo => amo::atomic(word),
        Entry::Op(first, second) => base::by_funct7(first, second, f7).map_or(
            Instr::Illegal,
            |op| base::op(op, word),
        ),
        Entry::Lui => base::lui(word),
        Entry::Op32(first, second) => base::by_funct7(first, second, f7).map_or(
            Instr::Illegal,
            |op| base::op_32(op, word),
        ),
        Entry::Branch(op) => base::branch(op, word),
        Entry::Jalr => base::jalr(word),
        Entry::Jal => base::jal(word),
        Entry::System => base::system(word),
    }
}

// What a word is; Illegal is every word that document 01 gives cause 2.
pub fn decode(word: u32) -> Instr
    ensures { result ≡ decode_of word }
{
    if word % 4 == 3 {
        decide(tables::opcode_entry(word), word)
    } else {
        Instr::Illegal
    }
}

// What a word is where registers have so many bits, 32 or 64. The width is asked for first, so that at 64 the decoder's answer isn't copied.
#[tactic(auto, unfolding(crate::specs::Narrow::decode_at))]
pub fn decode_at(word: u32, xlen: u32) -> Instr
    ensures { result ≡ decode_at xlen word }
{
    if xlen == 32 {
        return narrow::narrow(decode(word));
    }
    decode(word)
}
