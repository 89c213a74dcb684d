// What an instruction does: its source registers are read, then its class is told their values.
#![tactic(auto)]

ghost use Rattle.std.specs.Prelude.{◌≡◌, cond, ◌&&◌, ◌≤◌, ◌<◌, ◌^◌, eqb, get_or};
ghost use Rattle.word.specs.Word.{Xlen};
ghost use Rattle.isa.specs.Width.{bits_of};
ghost use Rattle.isa.specs.Narrow.{with_op, pairs, lacks, paired_if, paired_at};
ghost use Rattle.settings.specs.Settings.{SizeRules, xlen_of};
ghost use Rattle.reserve.specs.Reserve.{covers_of};
ghost use Rattle.alu.specs.Pair.{joined};
ghost use Rattle.effect.specs.Effect.{Meets};
ghost use Rattle.effect.specs.Integer.{computed, holds_of};
ghost use Rattle.effect.specs.Atomic.{exec_cas_pair};
ghost use Rattle.effect.specs.Sound.{Fitting};
ghost use Rattle.effect.specs.Execute.{reg_at, pair_at, exec_atomic, execute, execute_word};

use alu::integer::add;
use alu::swap::Pair;
use effect::{Effect, Trap};
use exec::integer::{branch, computed, holds, jump};
use exec::memory::{load, store};
use exec::{Site, StepSite, atomic};
use isa::narrow::{lacks, op_if, pairs, width_if};
use isa::{AluOp, Atomic, AtomicOp, BranchOp, Instr, Width};
use machine::State;
use reserve::Notice;
use word::num::wrap;

// Register r of hart h; x has those of all harts.
#[tactic(auto, unfolding(effect::specs::Execute::reg_at))]
pub fn reg(x: &[u64; 256], h: usize, r: usize) -> u64
    requires { h < 8 }
    ensures { result ≡ reg_at x.now h r }
{
    x[h * 32 + r % 32]
}

// The pair of registers from r on, as much of each as width w has, zero where it starts at x0.
#[tactic(auto, using(word::proofs::WordLaws::low_lt), unfolding(effect::specs::Execute::pair_at))]
fn reg_pair(w: Width, x: &[u64; 256], h: usize, r: usize) -> Pair
    requires { h < 8 }
    ensures { (joined w result ≡ pair_at w (reg_at x.now h) r) × (result.low < 2 ^ bits_of w) }
{
    let first = r % 32;
    if first == 0 {
        return Pair { low: 0, high: 0 };
    }
    let bits = isa::bits_of(w);
    Pair {
        low: wrap(reg(x, h, r), bits),
        high: wrap(reg(x, h, first + 1), bits),
    }
}

// An AMOCAS of a pair, each half of width w, by its registers.
fn cas_pair(s: &State, site: Site, w: Width, m: Atomic, mem: &mut [u8]) -> Result<Effect, Trap>
    requires { site.hart < 8 }
    ensures { Meets site.hart (exec_cas_pair site.xlen site.misaligned w m.rd (reg_at s.now.x site.hart m.rs1) (pair_at w (reg_at s.now.x site.hart) m.rd)
        (pair_at w (reg_at s.now.x site.hart) m.rs2) site.pc site.base mem.old) site.base mem.old result mem.new }
{
    let h = site.hart;
    let want = reg_pair(w, &s.x, h, m.rd);
    let new = reg_pair(w, &s.x, h, m.rs2);
    atomic::cas_pair(site, w, m.rd, reg(&s.x, h, m.rs1), want, new, mem)
}

// An atomic instruction with an operation and a width of their own: what RV32 has as a pair of words comes here too, so that each operation's code stands
// once.
#[tactic(auto, using(exec::proofs::MemoryByLaws::memory_by_lr), unfolding(effect::specs::Execute::exec_atomic))]
fn atomic(
    s: &State,
    site: Site,
    op: AtomicOp,
    w: Width,
    m: Atomic,
    mem: &mut [u8],
) -> Result<Effect, Trap>
    requires { (site.hart < 8) × SizeRules s.now.settings × (bits_of w ≤ site.xlen) }
    ensures { Meets site.hart (exec_atomic site.xlen site.misaligned (with_op op w m) (reg_at s.now.x site.hart) site.pc site.base mem.old
        (covers_of s.now.settings (get_or s.now.res site.hart None))) site.base mem.old result mem.new }
{
    let rd = m.rd;
    let h = site.hart;
    let a = reg(&s.x, h, m.rs1);
    let v = reg(&s.x, h, m.rs2);
    match op {
        AtomicOp::Lr => atomic::lr(site, w, rd, a, mem),
        AtomicOp::Sc => atomic::sc(site, w, rd, a, v, s.settings, s.res[h], mem),
        AtomicOp::Cas => atomic::cas(site, w, rd, a, reg(&s.x, h, rd), v, mem),
        AtomicOp::CasPair => cas_pair(s, site, w, m, mem),
        AtomicOp::Rmw(o) => atomic::amo(site, o, w, rd, a, v, mem),
    }
}

// Whether registers have 32 bits and an AMOCAS.D is of a pair of words there.
fn pairs_at(xlen: u32, m: Atomic) -> bool
    ensures { result ≡ (eqb xlen 32 && pairs m) }
{
    xlen == 32 && pairs(m)
}

// The same with the operation and the width that it has where registers have xlen bits.
fn atomic_at(s: &State, site: Site, m: Atomic, mem: &mut [u8]) -> Result<Effect, Trap>
    requires { (site.hart < 8) × SizeRules s.now.settings × (bits_of (cond (eqb site.xlen 32 && pairs m) Width.Word m.width) ≤ site.xlen) }
    ensures { Meets site.hart (exec_atomic site.xlen site.misaligned (paired_if (eqb site.xlen 32 && pairs m) m) (reg_at s.now.x site.hart) site.pc site.base
        mem.old (covers_of s.now.settings (get_or s.now.res site.hart None))) site.base mem.old result mem.new }
{
    let paired = pairs_at(site.xlen, m);
    let op = op_if(paired, m);
    let w = width_if(paired, m);
    atomic(s, site, op, w, m, mem)
}

// Whether a branch is taken. The width is asked for here, so that the comparison is compiled for each by itself; as the operation is below.
fn taken_at(xlen: u32, op: BranchOp, a: u64, b: u64) -> bool
    requires { Xlen xlen }
    ensures { result ≡ holds_of xlen op a b }
{
    if xlen == 64 {
        return holds(64, op, a, b);
    }
    holds(32, op, a, b)
}

// An operation of OP or OP-IMM.
fn compute_at(xlen: u32, op: AluOp, a: u64, b: u64) -> u64
    requires { Xlen xlen }
    ensures { result ≡ computed xlen xlen op a b }
{
    if xlen == 64 {
        return computed(64, op, 64, a, b);
    }
    computed(32, op, 32, a, b)
}

// An instruction that isn't lacked where registers have xlen bits. The word is the value of cause 2.
#[tactic(auto, using(exec::proofs::MemoryByLaws::memory_by_jump, exec::proofs::MemoryByLaws::memory_by_branch, exec::proofs::MemoryByLaws::memory_by_load), unfolding(effect::specs::Execute::execute))]
fn execute(s: &State, step: StepSite, i: Instr, word: u32, mem: &mut [u8]) -> Result<Effect, Trap>
    requires { SizeRules s.now.settings × Fitting step.site.xlen (paired_at step.site.xlen i) }
    ensures { Meets step.site.hart (execute step.site.xlen step.site.misaligned (paired_at step.site.xlen i) word (reg_at s.now.x step.site.hart)
        step.site.pc step.site.base mem.old (covers_of s.now.settings (get_or s.now.res step.site.hart None))) step.site.base mem.old result mem.new }
{
    let site = step.site;
    let xlen = site.xlen;
    let pc = site.pc;
    let h = site.hart;
    let x = &s.x;
    match i {
        Instr::Illegal => Err(Trap {
            cause: 2,
            value: u64::from(word),
        }),
        Instr::Lui { rd, imm } => site.retire(rd, wrap(imm, xlen), Notice::Quiet),
        Instr::Auipc { rd, imm } => site.retire(rd, add(pc, imm, xlen), Notice::Quiet),
        Instr::Jal { rd, imm } => jump(site, rd, add(pc, imm, xlen)),
        Instr::Jalr { rd, rs1, imm } => jump(site, rd, add(reg(x, h, rs1), imm, xlen) / 2 * 2),
        Instr::Branch { op, rs1, rs2, imm } => {
            let taken = taken_at(xlen, op, reg(x, h, rs1), reg(x, h, rs2));
            branch(site, taken, add(pc, imm, xlen))
        }
        Instr::Load { op, rd, rs1, imm } => load(site, op, rd, add(reg(x, h, rs1), imm, xlen), mem),
        Instr::Store { op, rs1, rs2, imm } => {
            let a = add(reg(x, h, rs1), imm, xlen);
            store(site, op, a, reg(x, h, rs2), mem)
        }
        Instr::OpImm { op, rd, rs1, imm } => {
            let v = compute_at(xlen, op, reg(x, h, rs1), imm);
            site.retire(rd, v, Notice::Quiet)
        }
        Instr::OpImm32 { op, rd, rs1, imm } => {
            let v = computed(64, op, 32, reg(x, h, rs1), imm);
            site.retire(rd, v, Notice::Quiet)
        }
        Instr::Op { op, rd, rs1, rs2 } => {
            let v = compute_at(xlen, op, reg(x, h, rs1), reg(x, h, rs2));
            site.retire(rd, v, Notice::Quiet)
        }
        Instr::Op32 { op, rd, rs1, rs2 } => {
            let v = computed(64, op, 32, reg(x, h, rs1), reg(x, h, rs2));
            site.retire(rd, v, Notice::Quiet)
        }
        Instr::Fence { .. } => site.retire(0, 0, Notice::Quiet),
        Instr::Ecall => Err(Trap { cause: 8, value: 0 }),
        Instr::Ebreak => Err(Trap { cause: 3, value: 0 }),
        Instr::Amo(m) => atomic_at(s, site, m, mem),
    }
}

// Whether registers have 32 bits and RV32 lacks the instruction.
fn lacked_at(xlen: u32, i: Instr) -> bool
    ensures { result ≡ (eqb xlen 32 && lacks i) }
{
    xlen == 32 && lacks(i)
}

// What a word does as the next instruction of hart h. What RV32 lacks is asked for once, before the classes: a test, and a second way out, in each of them
// takes the 64-bit core's time too.
#[tactic(auto, using(settings::proofs::SettingsLaws::xlen_is, word::proofs::WordLaws::xlen_bounds))]
pub fn execute_word(
    s: &State,
    h: usize,
    word: u32,
    base: u64,
    mem: &mut [u8],
) -> Result<Effect, Trap>
    requires { (h < 8) × SizeRules s.now.settings }
    ensures { Meets h (execute_word (xlen_of s.now.settings) s.now.settings.misaligned word (reg_at s.now.x h) (get_or s.now.pc h 0) base mem.old
        (covers_of s.now.settings (get_or s.now.res h None))) base mem.old result mem.new }
{
    let site = Site {
        xlen: settings::xlen(s.settings),
        misaligned: s.settings.misaligned,
        hart: h,
        pc: s.pc[h],
        base,
    };
    let step = StepSite { site };
    let i = isa::decode(word);
    if lacked_at(site.xlen, i) {
        return Err(Trap {
            cause: 2,
            value: u64::from(word),
        });
    }
    execute(s, step, i, word, mem)
}
