// The state of the machine, and which states and memories are refused.
#![tactic(auto)]

ghost use Rattle.std.specs.Prelude.{◌≡◌, ◌*◌, ◌<◌, ◌≤◌, get_or};
ghost use Rattle.word.specs.Each.{all_below};
ghost use Rattle.settings.specs.Settings.{SizeRules};
ghost use Rattle.machine.specs.State.{lent_ok, top_ok, memory_ok, reservation_ok, hart_ok, upper_ok, hart_at, refusal_of, refused};
ghost use Rattle.machine.specs.Rules.{LentRules};

use reserve::Reservation;
use settings::{Settings, remainder};

// A lent memory has LEAST to MOST bytes, at a base of at most TOP.
pub const LEAST: usize = 64;

pub const MOST: usize = 1048576;

pub const TOP: u64 = 1099511627776; // 2^40

// What the numbers of the 32-bit core are below.
pub const NARROW: u64 = 4294967296; // 2^32

// count harts are used, all with the same settings. x of hart h stands at 32 * h to 32 * h + 31, its pc and its reservation at h. Arrays beside
// one another and no array of harts: so C keeps a state's bytes (layout), and so the theorems of answers, sc_history and progress read a state.
// No invariant bounds the count or a hart: a state is given with any numbers, and refusal 2 is for those that have no meaning.
#[derive(Clone, Copy)]
pub struct State {
    pub count: usize,
    pub settings: Settings,
    pub x: [u64; 256],
    pub pc: [u64; 8],
    pub res: [Option<Reservation>; 8],
}

// Whether a memory of len bytes at base may be lent, at a set size that is allowed.
#[tactic(auto, unfolding(crate::specs::State::lent_ok))]
fn lent_ok(settings: Settings, base: u64, len: usize) -> bool
    requires { SizeRules settings }
    ensures { result ≡ lent_ok settings base len }
{
    let granule = settings::granule(settings);
    LEAST <= len
        && len <= MOST
        && remainder(len as u64, granule) == 0
        && remainder(base, granule) == 0
        && base <= TOP
}

// Whether the end of such a memory is an address of the core's width, or one past the last. At 64 bits it always is.
#[tactic(auto, unfolding(crate::specs::State::top_ok))]
pub fn top_ok(settings: Settings, base: u64, len: usize) -> bool
    requires { LentRules settings base len }
    ensures { result ≡ top_ok settings base len }
{
    if settings::xlen(settings) == 32 {
        return base + (len as u64) <= NARROW;
    }
    true
}

// Whether refusal 1 does not apply. The size is tried first: the rest needs it.
#[tactic(auto, unfolding(crate::specs::State::memory_ok))]
fn memory_ok(settings: Settings, base: u64, len: usize) -> bool
    ensures { result ≡ memory_ok settings base len }
{
    settings::size_ok(settings) && lent_ok(settings, base, len) && top_ok(settings, base, len)
}

#[tactic(auto, unfolding(crate::specs::State::reservation_ok))]
fn reservation_ok(settings: Settings, base: u64, len: usize, r: Option<Reservation>) -> bool
    ensures { result ≡ reservation_ok settings base len r }
{
    match r {
        None => true,
        Some(Reservation { addr, width }) => {
            (width == 4 || width == 8)
                && 8 * width <= u64::from(settings::xlen(settings))
                && remainder(addr, width) == 0
                && reserve::inside(base, len as u64, addr, width)
        }
    }
}

// Whether x0 of hart k is zero, its pc is aligned and its reservation may be held.
#[tactic(auto, unfolding(crate::specs::State::hart_ok))]
fn hart_ok(base: u64, len: usize, s: &State, k: usize) -> bool
    requires { k < 8 }
    ensures { result ≡ hart_ok s.now.settings base len (get_or s.now.x (k * 32) 0) (get_or s.now.pc k 0) (get_or s.now.res k None) }
{
    s.x[k * 32] == 0 && s.pc[k] % 4 == 0 && reservation_ok(s.settings, base, len, s.res[k])
}

// Whether hart k's registers and pc have no upper half, which only the 32-bit core asks. All 32 are looked at without a branch.
#[tactic(auto, unfolding(crate::specs::State::upper_ok, word::specs::Each::all_below))]
fn upper_ok(s: &State, k: usize) -> bool
    requires { k < 8 }
    ensures { result ≡ upper_ok s.now.settings s.now.x s.now.pc k }
{
    if settings::xlen(s.settings) != 32 {
        return true;
    }
    let mut ok = true;
    for r in 0..32 {
        ok &= s.x[k * 32 + r] < NARROW;
    }
    ok & (s.pc[k] < NARROW)
}

// Whether each of the harts that are used is well formed. By place: a hart is three arrays' parts.
fn harts_ok(base: u64, len: usize, s: &State) -> bool
    requires { s.now.count ≤ 8 }
    ensures { result ≡ all_below (hart_at s.now.settings base len s.now.x s.now.pc s.now.res) s.now.count }
{
    for k in 0..s.count {
        if !(hart_ok(base, len, s, k) && upper_ok(s, k)) {
            return false;
        }
    }
    true
}

// The first of refusals 1 and 2 that applies.
#[tactic(auto, unfolding(crate::specs::State::refusal_of, crate::specs::State::state_ok))]
pub fn refusal(base: u64, len: usize, s: &State) -> Option<u64>
    ensures { result ≡ refused (refusal_of base len s.now) }
{
    if !memory_ok(s.settings, base, len) {
        return Some(1);
    }
    if s.count == 0 || 8 < s.count {
        return Some(2);
    }
    if !(settings::reading_ok(s.settings) && settings::misaligned_ok(s.settings)) {
        return Some(2);
    }
    if !harts_ok(base, len, s) {
        return Some(2);
    }
    None // all is as the rules say
}
