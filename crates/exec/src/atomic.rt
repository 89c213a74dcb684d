// LR, SC, AMO and AMOCAS. Those that write lend on only the bytes that they name.
ghost use Rattle.std.specs.Prelude.{◌≡◌, cond, ◌≤◌, ◌<◌, ◌^◌};
ghost use Rattle.settings.specs.Settings.{SizeRules};
ghost use Rattle.reserve.specs.Reserve.{covers_of};
ghost use Rattle.isa.specs.Width.{bits_of};
ghost use Rattle.alu.specs.Pair.{joined};
ghost use Rattle.effect.specs.Effect.{retired, done_of, Meets, next_pc};
ghost use Rattle.effect.specs.Atomic.{pair_writes, exec_lr, exec_sc, exec_amo, exec_cas, exec_cas_pair};

use crate::Site;
use alu::integer::add;
use alu::swap::Pair;
use effect::{Effect, Trap};
use isa::{AmoOp, Width, bits_of, bytes_of, pair_bytes_of};
use reserve::{Notice, Reservation};
use settings::{Settings, amo_cause, lr_cause};
use word::bytes::{load_at, store_at};
use word::num::{sign_extend, wrap};

pub fn lr(site: Site, w: Width, rd: usize, a: u64, mem: &[u8]) -> Result<Effect, Trap>
    requires { bits_of w ≤ site.xlen }
    ensures { result ≡ done_of site.hart (exec_lr site.xlen site.misaligned w rd a site.pc site.base mem.now) }
{
    let n = bytes_of(w);
    let at = site.access(lr_cause(site.misaligned), 5, a, n, mem.len())?;
    let v = load_at(mem, at, n);
    let value = sign_extend(v, bits_of(w), site.xlen);
    site.retire(
        rd,
        value,
        Notice::LoadReserved {
            hart: site.hart,
            addr: a,
            width: n as u64,
        },
    )
}

// Checked as a store is, whatever the hart's reservation res; then the set of the reservation decides, at a size that is allowed.
pub fn sc(
    site: Site,
    w: Width,
    rd: usize,
    a: u64,
    v: u64,
    settings: Settings,
    res: Option<Reservation>,
    mem: &mut [u8],
) -> Result<Effect, Trap>
    requires { SizeRules settings }
    ensures { Meets site.hart (exec_sc site.xlen site.misaligned w rd a v site.pc site.base mem.old (covers_of settings res)) site.base mem.old result mem.new }
{
    let n = bytes_of(w);
    let at = site.access(amo_cause(site.misaligned), 7, a, n, mem.len())?;
    if reserve::covers(settings, res, a, n as u64) {
        store_at(mem, at, n, v);
        return site.retire(
            rd,
            0,
            Notice::ScStored {
                hart: site.hart,
                addr: a,
                len: n as u64,
            },
        );
    }
    site.retire(rd, 1, Notice::ScFailed { hart: site.hart })
}

pub fn amo(
    site: Site,
    op: AmoOp,
    w: Width,
    rd: usize,
    a: u64,
    v: u64,
    mem: &mut [u8],
) -> Result<Effect, Trap>
    requires { bits_of w ≤ site.xlen }
    ensures { Meets site.hart (exec_amo site.xlen site.misaligned op w rd a v site.pc site.base mem.old) site.base mem.old result mem.new }
{
    let n = bytes_of(w);
    let bits = bits_of(w);
    let at = site.access(amo_cause(site.misaligned), 7, a, n, mem.len())?;
    let operand = wrap(v, bits);
    let old = alu::atomic::modify_at(mem, at, op, w, operand);
    site.retire(
        rd,
        sign_extend(old, bits, site.xlen),
        Notice::Write {
            hart: site.hart,
            addr: a,
            len: n as u64,
        },
    )
}

// A compare-and-swap is a write only where the values were equal.
fn swap_notice(equal: bool, hart: usize, addr: u64, n: usize) -> Notice
    ensures { result ≡ cond equal (Notice.Write hart addr n) Notice.Quiet }
{
    if equal {
        Notice::Write {
            hart,
            addr,
            len: n as u64,
        }
    } else {
        Notice::Quiet
    }
}

// AMOCAS.W, and AMOCAS.D where registers have 64 bits. W compares with the low half of want.
pub fn cas(
    site: Site,
    w: Width,
    rd: usize,
    a: u64,
    want: u64,
    new: u64,
    mem: &mut [u8],
) -> Result<Effect, Trap>
    requires { bits_of w ≤ site.xlen }
    ensures { Meets site.hart (exec_cas site.xlen site.misaligned w rd a want new site.pc site.base mem.old) site.base mem.old result mem.new }
{
    let n = bytes_of(w);
    let bits = bits_of(w);
    let at = site.access(amo_cause(site.misaligned), 7, a, n, mem.len())?;
    let least = wrap(want, bits);
    let old = alu::swap::compare_swap_at(mem, at, n, least, new);
    let value = sign_extend(old, bits, site.xlen);
    site.retire(rd, value, swap_notice(old == least, site.hart, a, n))
}

// A pair of registers is set, each half of width w, unless it starts at x0, and the next word comes next.
fn retire_pair(site: Site, w: Width, rd: usize, old: Pair, notice: Notice) -> Result<Effect, Trap>
    requires { (old.low < 2 ^ bits_of w) × (old.high < 2 ^ bits_of w) }
    ensures { result ≡ retired (pair_writes w rd (joined w old)) (next_pc site.xlen site.pc) notice }
{
    let first = rd % 32;
    if first == 0 {
        return site.retire(0, 0, notice);
    }
    Ok(Effect {
        rd: first,
        value: old.low,
        rd2: first + 1,
        value2: old.high,
        next: add(site.pc, 4, site.xlen),
        notice,
    })
}

// AMOCAS.Q, and AMOCAS.D where registers have 32 bits.
pub fn cas_pair(
    site: Site,
    w: Width,
    rd: usize,
    a: u64,
    want: Pair,
    new: Pair,
    mem: &mut [u8],
) -> Result<Effect, Trap>
    requires { (want.low < 2 ^ bits_of w) × (new.low < 2 ^ bits_of w) }
    ensures { Meets site.hart (exec_cas_pair site.xlen site.misaligned w rd a (joined w want) (joined w new) site.pc site.base mem.old)
        site.base mem.old result mem.new }
{
    let n = pair_bytes_of(w);
    let at = site.access(amo_cause(site.misaligned), 7, a, n, mem.len())?;
    let old = alu::swap::compare_swap_pair_at(mem, at, w, want, new);
    let equal = alu::swap::same(w, old, want);
    retire_pair(site, w, rd, old, swap_notice(equal, site.hart, a, n))
}
