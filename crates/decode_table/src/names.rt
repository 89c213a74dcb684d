// The manual's mnemonics.
use isa::{AluOp, AmoOp, AtomicOp, BranchOp, LoadOp, StoreOp, Width};

pub fn branch(op: BranchOp) -> &'static str {
    match op {
        BranchOp::Eq => "beq",
        BranchOp::Ne => "bne",
        BranchOp::Lt => "blt",
        BranchOp::Ge => "bge",
        BranchOp::Ltu => "bltu",
        BranchOp::Geu => "bgeu",
    }
}

pub fn load(op: LoadOp) -> &'static str {
    match op {
        LoadOp::Lb => "lb",
        LoadOp::Lh => "lh",
        LoadOp::Lw => "lw",
        LoadOp::Ld => "ld",
        LoadOp::Lbu => "lbu",
        LoadOp::Lhu => "lhu",
        LoadOp::Lwu => "lwu",
    }
}

pub fn store(op: StoreOp) -> &'static str {
    match op {
        StoreOp::Sb => "sb",
        StoreOp::Sh => "sh",
        StoreOp::Sw => "sw",
        StoreOp::Sd => "sd",
    }
}

// Of an operation on two registers.
pub fn alu(op: AluOp) -> &'static str {
    match op {
        AluOp::Add => "add",
        AluOp::Sub => "sub",
        AluOp::Sll => "sll",
        AluOp::Slt => "slt",
        AluOp::Sltu => "sltu",
        AluOp::Xor => "xor",
        AluOp::Srl => "srl",
        AluOp::Sra => "sra",
        AluOp::Or => "or",
        AluOp::And => "and",
    }
}

// Of an operation on a register and an immediate.
pub fn alu_imm(op: AluOp) -> &'static str {
    match op {
        AluOp::Add => "addi",
        AluOp::Sub => "subi",
        AluOp::Sll => "slli",
        AluOp::Slt => "slti",
        AluOp::Sltu => "sltiu",
        AluOp::Xor => "xori",
        AluOp::Srl => "srli",
        AluOp::Sra => "srai",
        AluOp::Or => "ori",
        AluOp::And => "andi",
    }
}

pub fn atomic(op: AtomicOp) -> &'static str {
    match op {
        AtomicOp::Lr => "lr",
        AtomicOp::Sc => "sc",
        AtomicOp::Cas | AtomicOp::CasPair => "amocas",
        AtomicOp::Rmw(AmoOp::Swap) => "amoswap",
        AtomicOp::Rmw(AmoOp::Add) => "amoadd",
        AtomicOp::Rmw(AmoOp::Xor) => "amoxor",
        AtomicOp::Rmw(AmoOp::And) => "amoand",
        AtomicOp::Rmw(AmoOp::Or) => "amoor",
        AtomicOp::Rmw(AmoOp::Min) => "amomin",
        AtomicOp::Rmw(AmoOp::Max) => "amomax",
        AtomicOp::Rmw(AmoOp::Minu) => "amominu",
        AtomicOp::Rmw(AmoOp::Maxu) => "amomaxu",
    }
}

// The width of what an atomic moves: of a pair of registers, twice that of one.
pub fn width(op: AtomicOp, w: Width) -> &'static str {
    match (op, w) {
        (AtomicOp::CasPair, Width::Word) => "d",
        (AtomicOp::CasPair, Width::Double) => "q",
        (_, Width::Word) => "w",
        (_, Width::Double) => "d",
    }
}
