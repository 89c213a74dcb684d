// Writes a line for each 4-byte word of standard input: the word, its mnemonic, and every field of the decoded instruction. First of all words where
// registers have 64 bits, then of all where they have 32. tools/decode-table makes the input and, by another disassembler, the lines that are expected.
#![tactic(auto)]

ghost use Rattle.std.specs.Prelude.{◌≡◌, length};

use input::read_full;
use isa::{Atomic, Instr};
use std::io;
use word::bytes::load_le;

mod names;

fn instr(rt: &impl Print, i: Instr) -> io::Result<()> {
    match i {
        Instr::Illegal => print!(rt; "illegal"),
        Instr::Lui { rd, imm } => print!(rt; "lui rd={rd} imm={imm:016x}"),
        Instr::Auipc { rd, imm } => print!(rt; "auipc rd={rd} imm={imm:016x}"),
        Instr::Jal { rd, imm } => print!(rt; "jal rd={rd} imm={imm:016x}"),
        Instr::Jalr { rd, rs1, imm } => print!(rt; "jalr rd={rd} rs1={rs1} imm={imm:016x}"),
        Instr::Branch { op, rs1, rs2, imm } => print!(rt;
            "{} rs1={rs1} rs2={rs2} imm={imm:016x}",
            names::branch(op)
        ),
        Instr::Load { op, rd, rs1, imm } => print!(rt;
            "{} rd={rd} rs1={rs1} imm={imm:016x}",
            names::load(op)
        ),
        Instr::Store { op, rs1, rs2, imm } => print!(rt;
            "{} rs1={rs1} rs2={rs2} imm={imm:016x}",
            names::store(op)
        ),
        Instr::OpImm { op, rd, rs1, imm } => print!(rt;
            "{} rd={rd} rs1={rs1} imm={imm:016x}",
            names::alu_imm(op)
        ),
        Instr::OpImm32 { op, rd, rs1, imm } => print!(rt;
            "{}w rd={rd} rs1={rs1} imm={imm:016x}",
            names::alu_imm(op)
        ),
        Instr::Op { op, rd, rs1, rs2 } => print!(rt;
            "{} rd={rd} rs1={rs1} rs2={rs2}",
            names::alu(op)
        ),
        Instr::Op32 { op, rd, rs1, rs2 } => print!(rt;
            "{}w rd={rd} rs1={rs1} rs2={rs2}",
            names::alu(op)
        ),
        Instr::Fence { rd, rs1, imm } => print!(rt; "fence rd={rd} rs1={rs1} imm={imm:016x}"),
        Instr::Ecall => print!(rt; "ecall"),
        Instr::Ebreak => print!(rt; "ebreak"),
        Instr::Amo(a) => atomic(rt, a),
    }
}

fn atomic(rt: &impl Print, a: Atomic) -> io::Result<()> {
    let (name, width) = (names::atomic(a.op), names::width(a.op, a.width));
    print!(rt;
        "{name}.{width} rd={} rs1={} rs2={} aq={} rl={}",
        a.rd,
        a.rs1,
        a.rs2,
        u8::from(a.aq),
        u8::from(a.rl)
    )
}

fn line(rt: &impl Print, bytes: &[u8], xlen: u32) -> io::Result<()>
    requires { length bytes.now ≡ 4 }
{
    let word = load_le(bytes) as u32;
    print!(rt; "{word:08x} ")?;
    instr(rt, isa::decode_at(word, xlen))?;
    println!(rt)
}

fn all(rt: &impl Print, words: &[u8], xlen: u32) -> io::Result<()> {
    for bytes in words.chunks_exact(4) {
        line(rt, bytes, xlen)?;
    }
    Ok(())
}

fn main(rt: HostRuntime) -> io::Result<()> {
    let mut space = [0u8; 65536];
    let n = read_full(&mut rt.stdin(), &mut space)?;
    all(&rt, &space[..n], 64)?;
    all(&rt, &space[..n], 32)
}
