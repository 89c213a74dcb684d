// The two tables of 256 entries that the decoder reads, each a row of 8 for each of 32 numbers, and how it reads them. They are statics: a constant of this
// type is built in memory, all of it, at each reading.
ghost use Rattle.std.specs.Prelude.{◌≡◌};
ghost use Rattle.isa.specs.Fields.{bits, funct3_of, funct5_of};
ghost use Rattle.isa.specs.Tables.{opcode_at, atomic_at};

use crate::{AluOp, AmoOp, AtomicOp, BranchOp, LoadOp, StoreOp, Width, fields};

// What bits 6 to 2 and funct3 say of a word: its class, and its operation where funct3 tells it. Where funct7 or funct6 decides too, an entry has the
// operation at funct7 0 and that at 0x20, if there is one.
#[derive(Clone, Copy)]
pub enum Entry {
    // No word there has an instruction.
    Illegal,
    Load(LoadOp),
    Fence,
    OpImm(AluOp),
    Shift(AluOp, Option<AluOp>),
    Auipc,
    AddImm32,
    Shift32(AluOp, Option<AluOp>),
    Store(StoreOp),
    // The second table decides.
    Amo,
    Op(AluOp, Option<AluOp>),
    Lui,
    Op32(AluOp, Option<AluOp>),
    Branch(BranchOp),
    Jalr,
    Jal,
    // The whole word decides.
    System,
}

// The entry of a word in the first table.
pub fn opcode_entry(word: u32) -> Entry
    ensures { result ≡ opcode_at (bits 6 2 word) (funct3_of word) }
{
    OPCODE_TABLE[((word >> 2) % 32) as usize][fields::funct3(word) as usize]
}

// The entry of a word in the second table: the operation and its width, None where there is no operation.
pub fn atomic_entry(word: u32) -> Option<(AtomicOp, Width)>
    ensures { result ≡ atomic_at (funct5_of word) (funct3_of word) }
{
    ATOMIC_TABLE[fields::funct5(word) as usize][fields::funct3(word) as usize]
}

const NO_CLASS: [Entry; 8] = [Entry::Illegal; 8];

// A row for each value of bits 6 to 2, and in it an entry for each funct3.
static OPCODE_TABLE: [[Entry; 8]; 32] = [
    // 0, LOAD
    [
        Entry::Load(LoadOp::Lb),
        Entry::Load(LoadOp::Lh),
        Entry::Load(LoadOp::Lw),
        Entry::Load(LoadOp::Ld),
        Entry::Load(LoadOp::Lbu),
        Entry::Load(LoadOp::Lhu),
        Entry::Load(LoadOp::Lwu),
        Entry::Illegal,
    ],
    NO_CLASS,
    NO_CLASS,
    // 3, MISC-MEM
    [
        Entry::Fence,
        Entry::Illegal,
        Entry::Illegal,
        Entry::Illegal,
        Entry::Illegal,
        Entry::Illegal,
        Entry::Illegal,
        Entry::Illegal,
    ],
    // 4, OP-IMM
    [
        Entry::OpImm(AluOp::Add),
        Entry::Shift(AluOp::Sll, None),
        Entry::OpImm(AluOp::Slt),
        Entry::OpImm(AluOp::Sltu),
        Entry::OpImm(AluOp::Xor),
        Entry::Shift(AluOp::Srl, Some(AluOp::Sra)),
        Entry::OpImm(AluOp::Or),
        Entry::OpImm(AluOp::And),
    ],
    // 5, AUIPC
    [Entry::Auipc; 8],
    // 6, OP-IMM-32
    [
        Entry::AddImm32,
        Entry::Shift32(AluOp::Sll, None),
        Entry::Illegal,
        Entry::Illegal,
        Entry::Illegal,
        Entry::Shift32(AluOp::Srl, Some(AluOp::Sra)),
        Entry::Illegal,
        Entry::Illegal,
    ],
    NO_CLASS,
    // 8, STORE
    [
        Entry::Store(StoreOp::Sb),
        Entry::Store(StoreOp::Sh),
        Entry::Store(StoreOp::Sw),
        Entry::Store(StoreOp::Sd),
        Entry::Illegal,
        Entry::Illegal,
        Entry::Illegal,
        Entry::Illegal,
    ],
    NO_CLASS,
    NO_CLASS,
    // 11, AMO
    [Entry::Amo; 8],
    // 12, OP
    [
        Entry::Op(AluOp::Add, Some(AluOp::Sub)),
        Entry::Op(AluOp::Sll, None),
        Entry::Op(AluOp::Slt, None),
        Entry::Op(AluOp::Sltu, None),
        Entry::Op(AluOp::Xor, None),
        Entry::Op(AluOp::Srl, Some(AluOp::Sra)),
        Entry::Op(AluOp::Or, None),
        Entry::Op(AluOp::And, None),
    ],
    // 13, LUI
    [Entry::Lui; 8],
    // 14, OP-32
    [
        Entry::Op32(AluOp::Add, Some(AluOp::Sub)),
        Entry::Op32(AluOp::Sll, None),
        Entry::Illegal,
        Entry::Illegal,
        Entry::Illegal,
        Entry::Op32(AluOp::Srl, Some(AluOp::Sra)),
        Entry::Illegal,
        Entry::Illegal,
    ],
    NO_CLASS,
    NO_CLASS,
    NO_CLASS,
    NO_CLASS,
    NO_CLASS,
    NO_CLASS,
    NO_CLASS,
    NO_CLASS,
    NO_CLASS,
    // 24, BRANCH
    [
        Entry::Branch(BranchOp::Eq),
        Entry::Branch(BranchOp::Ne),
        Entry::Illegal,
        Entry::Illegal,
        Entry::Branch(BranchOp::Lt),
        Entry::Branch(BranchOp::Ge),
        Entry::Branch(BranchOp::Ltu),
        Entry::Branch(BranchOp::Geu),
    ],
    // 25, JALR
    [
        Entry::Jalr,
        Entry::Illegal,
        Entry::Illegal,
        Entry::Illegal,
        Entry::Illegal,
        Entry::Illegal,
        Entry::Illegal,
        Entry::Illegal,
    ],
    NO_CLASS,
    // 27, JAL
    [Entry::Jal; 8],
    // 28, SYSTEM
    [Entry::System; 8],
    NO_CLASS,
    NO_CLASS,
    NO_CLASS,
];

const NO_ATOMIC: [Option<(AtomicOp, Width)>; 8] = [None; 8];

// The row of an operation that has both widths: funct3 2 is W, and 3 is D.
macro_rules! sized {
    ($op:expr) => {
        [None, None, Some(($op, Width::Word)), Some(($op, Width::Double)), None, None, None, None]
    };
}

// A row for each funct5, and in it an entry for each funct3.
static ATOMIC_TABLE: [[Option<(AtomicOp, Width)>; 8]; 32] = [
    sized!(AtomicOp::Rmw(AmoOp::Add)),
    sized!(AtomicOp::Rmw(AmoOp::Swap)),
    sized!(AtomicOp::Lr),
    sized!(AtomicOp::Sc),
    sized!(AtomicOp::Rmw(AmoOp::Xor)),
    // 5, AMOCAS, which has Q too
    [
        None,
        None,
        Some((AtomicOp::Cas, Width::Word)),
        Some((AtomicOp::Cas, Width::Double)),
        Some((AtomicOp::CasPair, Width::Double)),
        None,
        None,
        None,
    ],
    NO_ATOMIC,
    NO_ATOMIC,
    sized!(AtomicOp::Rmw(AmoOp::Or)),
    NO_ATOMIC,
    NO_ATOMIC,
    NO_ATOMIC,
    // 12
    sized!(AtomicOp::Rmw(AmoOp::And)),
    NO_ATOMIC,
    NO_ATOMIC,
    NO_ATOMIC,
    // 16
    sized!(AtomicOp::Rmw(AmoOp::Min)),
    NO_ATOMIC,
    NO_ATOMIC,
    NO_ATOMIC,
    // 20
    sized!(AtomicOp::Rmw(AmoOp::Max)),
    NO_ATOMIC,
    NO_ATOMIC,
    NO_ATOMIC,
    // 24
    sized!(AtomicOp::Rmw(AmoOp::Minu)),
    NO_ATOMIC,
    NO_ATOMIC,
    NO_ATOMIC,
    // 28
    sized!(AtomicOp::Rmw(AmoOp::Maxu)),
    NO_ATOMIC,
    NO_ATOMIC,
    NO_ATOMIC,
];
