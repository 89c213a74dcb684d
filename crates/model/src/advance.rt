// Events performed in place, on a state and a memory that refusals 1 and 2 do not refuse.
ghost use Rattle.std.specs.Prelude.{◌≡◌, ◌<◌, ◌≤◌};
ghost use Rattle.settings.specs.Settings.{SizeRules};
ghost use Rattle.effect.specs.Effect.{Meets};
ghost use Rattle.model.specs.Act.{retired_as, set_reg, release, apply};
ghost use Rattle.model.specs.Perform.{step_of, of_exec, device_of};
ghost use Rattle.model.specs.Valid.{Valid};
ghost use Rattle.model.specs.Advance.{state_by, reply_by, told, Does, Advances};

use crate::{Outcome, Reply};
use effect::{Effect, Trap};
use events::Event;
use machine::State;
use reserve::{Notice, harts};

// Fetches the word at hart h's pc and does what it says.
fn fetch(s: &State, h: usize, base: u64, mem: &mut [u8]) -> Result<Effect, Trap>
    requires { (h < 8) × SizeRules s.now.settings }
    ensures { Meets h (step_of base mem.old s.now h) base mem.old result mem.new }
{
    let pc = s.pc[h];
    if !reserve::inside(base, mem.len() as u64, pc, 4) {
        return Err(Trap {
            cause: 1,
            value: pc,
        });
    }
    let word = word::bytes::load_at(mem, (pc - base) as usize, 4) as u32;
    dispatch::execute_word(s, h, word, base, mem)
}

// Sets register r of hart h; x0 never changes.
#[tactic(auto, unfolding(crate::specs::Act::set_reg))]
pub fn set_reg(x: &mut [u64; 256], h: usize, r: usize, v: u64)
    requires { h < 8 }
    ensures { x.new ≡ set_reg h r v x.old }
{
    let i = r % 32;
    if i != 0 {
        x[h * 32 + i] = v;
    }
}

// The outcome of a retired event.
fn retired_as(n: Notice) -> Outcome
    ensures { result ≡ retired_as n }
{
    match n {
        Notice::ScStored { .. } => Outcome::ScStored,
        Notice::ScFailed { .. } => Outcome::ScFailed,
        Notice::Quiet
        | Notice::LoadReserved { .. }
        | Notice::Write { .. }
        | Notice::DeviceWrite { .. }
        | Notice::Yield { .. } => Outcome::Retired,
    }
}

// The reply to an event that broke no reservation.
fn broke_none(outcome: Outcome) -> Reply
    ensures { result ≡ record { outcome = outcome; broke = 0 } }
{
    Reply { outcome, broke: 0 }
}

// What a step of hart h came to, done on the state, and its reply.
#[tactic(auto, unfolding(crate::specs::Advance::state_by, crate::specs::Advance::reply_by))]
fn settle(s: &mut State, h: usize, done: Result<Effect, Trap>) -> Reply
    requires { (h < 8) × (s.old.count ≤ 8) × SizeRules s.old.settings }
    ensures state_after { s.new ≡ state_by h done s.old }
    ensures reply { result ≡ reply_by done s.old }
{
    match done {
        Ok(e) => {
            set_reg(&mut s.x, h, e.rd, e.value);
            set_reg(&mut s.x, h, e.rd2, e.value2);
            s.pc[h] = e.next;
            Reply {
                outcome: retired_as(e.notice),
                broke: harts::observe(&mut s.res, s.count, s.settings, e.notice),
            }
        }
        Err(Trap { cause, value }) => broke_none(Outcome::Trap { cause, value }),
    }
}

// A step of hart h.
fn step_hart(s: &mut State, h: usize, base: u64, mem: &mut [u8]) -> Reply
    requires { (h < 8) × (s.old.count ≤ 8) × SizeRules s.old.settings }
    ensures { Does base (of_exec h (step_of base mem.old s.old h))
        (record { state = s.old; mem = mem.old }) result (record { state = s.new; mem = mem.new }) }
{
    let done = fetch(s, h, base, mem);
    settle(s, h, done)
}

// A device write of the size lowest bytes of value.
fn write_device(
    s: &mut State,
    addr: u64,
    size: usize,
    value: u64,
    base: u64,
    mem: &mut [u8],
) -> Reply
    requires { (s.old.count ≤ 8) × SizeRules s.old.settings }
    ensures { Does base (device_of base mem.old addr size value)
        (record { state = s.old; mem = mem.old }) result (record { state = s.new; mem = mem.new }) }
{
    if size == 0 || 8 < size {
        return broke_none(Outcome::Refused { number: 4 });
    }
    if !reserve::inside(base, mem.len() as u64, addr, size as u64) {
        return broke_none(Outcome::Refused { number: 5 });
    }
    word::bytes::store_at(mem, (addr - base) as usize, size, value);
    Reply {
        outcome: Outcome::Retired,
        broke: harts::device_write(&mut s.res, s.count, s.settings, addr, size as u64),
    }
}

// A yield of hart h.
#[tactic(auto, unfolding(crate::specs::Act::apply))]
fn release_hart(s: &mut State, h: usize) -> Reply
    requires { s.old.count ≤ 8 }
    ensures state_after { s.new ≡ apply s.old (release h) }
    ensures reply { result ≡ told s.old (release h) }
{
    harts::release(&mut s.res, s.count, h);
    broke_none(Outcome::Retired)
}

// An event.
pub fn advance(s: &mut State, base: u64, mem: &mut [u8], e: Event) -> Reply
    requires { Valid base (record { state = s.old; mem = mem.old }) }
    ensures { Advances base e (record { state = s.old; mem = mem.old }) result (record { state = s.new; mem = mem.new }) }
{
    match e {
        Event::Step { hart } => {
            if hart < s.count {
                return step_hart(s, hart, base, mem);
            }
            broke_none(Outcome::Refused { number: 3 })
        }
        Event::Device {
            addr,
            size,
            data: value,
        } => write_device(s, addr, size, value, base, mem),
        Event::Yield { hart } => {
            if hart < s.count {
                return release_hart(s, hart);
            }
            broke_none(Outcome::Refused { number: 3 })
        }
    }
}
