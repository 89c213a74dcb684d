// Integer operations, jumps and branches. They tell reservations nothing, so that the answer is the same for every hart h.
ghost use Rattle.std.specs.Prelude.{◌≡◌, ℕ, ◌%◌, ◌≤◌, ◌<◌, cond, eqb};
ghost use Rattle.word.specs.Word.{Xlen};
ghost use Rattle.effect.specs.Effect.{trap, effect, one, nothing, done_of, sets};
ghost use Rattle.effect.specs.Integer.{computed, exec_jump, holds_of, exec_branch};

use crate::{Site, retire};
use alu::integer::{add, less};
use effect::{Effect, Trap};
use isa::{AluOp, BranchOp};
use reserve::Notice;
use word::num::{sign_extend, wrap};

// OP and OP-IMM at xlen bits, OP-32 and OP-IMM-32 at 32: what the register gets.
#[tactic(auto, using(word::proofs::WordLaws::low_lt), unfolding(effect::specs::Integer::computed))]
pub fn computed(xlen: u32, op: AluOp, bits: u32, a: u64, b: u64) -> u64
    requires { Xlen bits × (bits ≤ xlen) × (xlen ≤ 64) }
    ensures { result ≡ computed xlen bits op a b }
{
    let x = wrap(a, bits);
    let y = wrap(b, bits);
    sign_extend(alu::integer::operate(op, bits, x, y), bits, xlen)
}

// The register set to that, and the next word comes next.
pub fn compute(
    xlen: u32,
    op: AluOp,
    bits: u32,
    rd: usize,
    a: u64,
    b: u64,
    pc: u64,
) -> Result<Effect, Trap>
    requires { Xlen bits × (bits ≤ xlen) × (xlen ≤ 64) }
    ensures { (h : ℕ) → result ≡ done_of h (sets xlen rd (computed xlen bits op a b) pc) }
{
    retire(xlen, rd, computed(xlen, op, bits, a, b), pc, Notice::Quiet)
}

// A jump to a target, which sets one register, or its trap. The answer is the same for every hart h, as those below are.
fn go_to(to: u64, rd: usize, value: u64) -> Result<Effect, Trap>
    ensures { (h : ℕ) → result ≡ done_of h (cond (eqb (to % 4) 0) (effect (one rd value) to nothing) (trap 0 to)) }
{
    if to % 4 != 0 {
        return Err(Trap {
            cause: 0,
            value: to,
        });
    }
    Ok(Effect {
        rd,
        value,
        rd2: 0,
        value2: 0,
        next: to,
        notice: Notice::Quiet,
    })
}

// JAL and JALR.
#[tactic(auto, unfolding(effect::specs::Integer::exec_jump))]
pub fn jump(site: Site, rd: usize, to: u64) -> Result<Effect, Trap>
    ensures { (h : ℕ) → result ≡ done_of h (exec_jump site.xlen rd to site.pc) }
{
    go_to(to, rd, add(site.pc, 4, site.xlen))
}

// Whether the branch is taken.
#[tactic(auto, using(word::proofs::WordLaws::low_lt), unfolding(effect::specs::Integer::holds_of))]
pub fn holds(xlen: u32, op: BranchOp, a: u64, b: u64) -> bool
    requires { (0 < xlen) × (xlen ≤ 64) }
    ensures { result ≡ holds_of xlen op a b }
{
    let x = wrap(a, xlen);
    let y = wrap(b, xlen);
    match op {
        BranchOp::Eq => x == y,
        BranchOp::Ne => x != y,
        BranchOp::Lt => less(x, y, xlen),
        BranchOp::Ge => !less(x, y, xlen),
        BranchOp::Ltu => x < y,
        BranchOp::Geu => x >= y,
    }
}

#[tactic(auto, unfolding(effect::specs::Integer::exec_branch))]
pub fn branch(site: Site, taken: bool, to: u64) -> Result<Effect, Trap>
    ensures { (h : ℕ) → result ≡ done_of h (exec_branch site.xlen taken to site.pc) }
{
    if taken {
        go_to(to, 0, 0)
    } else {
        site.retire(0, 0, Notice::Quiet)
    }
}
