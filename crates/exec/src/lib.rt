// What an instruction does, class by class, at a site. Each function takes the values of its source registers, so that all of them are read before any register
// is written.
#![tactic(auto)]

ghost use Rattle.std.specs.Prelude.{◌≡◌, ◌<◌, ◌≤◌, ◌||◌, ◌==◌, true};
ghost use Rattle.effect.specs.Effect.{one, retired, next_pc};

use alu::integer::add;
use effect::{Effect, Trap};
use reserve::Notice;

pub mod atomic;
pub mod integer;
pub mod memory;

// Where an instruction is performed: by which hart, at which pc, in which memory. Registers and addresses have xlen bits, base is the address of the memory's
// first byte, and misaligned is the setting, a number as it stands there, that gives the cause of a misaligned LR, SC, AMO or AMOCAS.
#[derive(Clone, Copy)]
pub struct Site {
    pub xlen: u32,
    pub misaligned: u64,
    pub hart: usize,
    pub pc: u64,
    pub base: u64,
    ghost width: { xlen ≤ 64 },
}

// The site of a step of the machine: its registers have 32 or 64 bits, and its hart is one of eight.
#[derive(Clone, Copy)]
pub struct StepSite {
    pub site: Site,
    ghost width: { (site.xlen == 32 || site.xlen == 64) ≡ true },
    ghost hart_bound: { site.hart < 8 },
}

// One register is set, and the next word comes next. Setting x0 is setting none.
pub fn retire(xlen: u32, rd: usize, value: u64, pc: u64, notice: Notice) -> Result<Effect, Trap>
    requires { xlen ≤ 64 }
    ensures { result ≡ retired (one rd value) (next_pc xlen pc) notice }
{
    Ok(Effect {
        rd,
        value,
        rd2: 0,
        value2: 0,
        next: add(pc, 4, xlen),
        notice,
    })
}

impl Site {
    ghost use Rattle.std.specs.Prelude.{◌-◌, ◌+◌, ◌<◌, ◌≤◌, cond, eqb, IfOk};
    ghost use Rattle.effect.specs.Memory.{fault_of};

    // The place in a memory of len bytes of an access of n bytes at a, or its trap.
    #[tactic(auto, using(reserve::proofs::RangeLaws::inside_of_lem), unfolding(effect::specs::Memory::fault_of))]
    fn access(
        self,
        unaligned: u64,
        outside: u64,
        a: u64,
        n: usize,
        len: usize,
    ) -> Result<usize, Trap>
        requires { (0 < unaligned) × (0 < outside) × (0 < n) }
        ensures value { let cause = fault_of unaligned outside a n self.base len in
            result ≡ cond (eqb cause 0) (Ok (a - self.base)) (Err (record { cause = cause; value = a })) }
        ensures in_bounds { IfOk result (λ at. at + n ≤ len) }
    {
        let cause = memory::fault(unaligned, outside, a, n, self.base, len);
        if cause != 0 {
            return Err(Trap { cause, value: a });
        }
        Ok((a - self.base) as usize)
    }

    // The same at this site.
    pub fn retire(self, rd: usize, value: u64, notice: Notice) -> Result<Effect, Trap>
        ensures { result ≡ retired (one rd value) (next_pc self.xlen self.pc) notice }
    {
        retire(self.xlen, rd, value, self.pc, notice)
    }
}
