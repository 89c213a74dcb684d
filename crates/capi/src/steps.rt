// Events and runs on a machine whose state the caller keeps as bytes. layout/specs/Layout.antt has the offsets.
ghost use Rattle.std.specs.Prelude.{◌≡◌, ◌*◌, length};
ghost use Rattle.events.specs.declared.Event.TheVariants.{Step, Device, Yield};
ghost use Rattle.layout.specs.Layout.{state_size, word_bytes};
ghost use Rattle.capi.specs.Events.{state_if, code_of, value_of, is_retired, Small, PerformedOn, RanOn};

use crate::BAD_SIZE;
use events::Event;
use layout::{STATE_SIZE, read_state, store_words, write_state};
use machine::State;
use model::Outcome;
use word::bytes::store_le;

// The answer to an event as a number.
fn code_of(o: Outcome) -> u64
    requires { Small o }
    ensures { result ≡ code_of o }
{
    match o {
        Outcome::Retired => 0,
        Outcome::ScStored => 1,
        Outcome::ScFailed => 2,
        Outcome::Trap { cause, .. } => 256 + cause,
        Outcome::Refused { number } => 512 + number,
    }
}

// A trap's value, the harts whose reservation a retired event broke, or 0.
fn value_of(o: Outcome, broke: u64) -> u64
    ensures { result ≡ value_of o broke }
{
    match o {
        Outcome::Retired | Outcome::ScStored | Outcome::ScFailed => broke,
        Outcome::Trap { value, .. } => value,
        Outcome::Refused { .. } => 0,
    }
}

// Whether an event changed the machine.
fn is_retired(o: Outcome) -> bool
    ensures { result ≡ is_retired o }
{
    matches!(o, Outcome::Retired | Outcome::ScStored | Outcome::ScFailed)
}

// Puts a state over the bytes if t holds. The bytes are a slice that C lends, so their length is asked here and in `layout`, and tried in the functions for C.
pub fn write_if(t: bool, state: &mut [u8], s: State)
    requires { length state.old ≡ state_size }
    ensures { state.new ≡ state_if t state.old s }
{
    if t {
        write_state(state, s);
    }
}

// An event on the machine that the bytes are.
#[tactic(auto, using(crate::proofs::EventLaws::small_answer))]
fn perform(state: &mut [u8], base: u64, mem: &mut [u8], e: Event, value: &mut [u8]) -> u64
    ensures { PerformedOn e base state.old mem.old value.old
        result state.new mem.new value.new }
{
    if state.len() != STATE_SIZE || value.len() != 8 {
        return BAD_SIZE;
    }
    let a = model::perform(read_state(state), base, mem, e);
    write_if(is_retired(a.outcome), state, a.state);
    store_le(value, value_of(a.outcome, a.broke));
    code_of(a.outcome)
}

// A step of a hart.
pub fn floecavern_step(
    state: &mut [u8],
    base: u64,
    mem: &mut [u8],
    hart: usize,
    value: &mut [u8],
) -> u64
    ensures { PerformedOn (Step hart) base state.old mem.old value.old
        result state.new mem.new value.new }
{
    perform(state, base, mem, Event::Step { hart }, value)
}

// A device write of the size lowest bytes of data, the first byte lowest.
pub fn floecavern_device_write(
    state: &mut [u8],
    base: u64,
    mem: &mut [u8],
    addr: u64,
    size: usize,
    data: u64,
    value: &mut [u8],
) -> u64
    ensures { PerformedOn (Device addr size «data») base state.old mem.old value.old
        result state.new mem.new value.new }
{
    perform(state, base, mem, Event::Device { addr, size, data }, value)
}

// A yield: drops a hart's reservation.
pub fn floecavern_yield(
    state: &mut [u8],
    base: u64,
    mem: &mut [u8],
    hart: usize,
    value: &mut [u8],
) -> u64
    ensures { PerformedOn (Yield hart) base state.old mem.old value.old
        result state.new mem.new value.new }
{
    perform(state, base, mem, Event::Yield { hart }, value)
}

// Writes numbers, 8 bytes for each.
pub fn tell(told: &mut [u8], numbers: &[u64])
    requires { length told.old ≡ 8 * length numbers.now }
    ensures { told.new ≡ word_bytes numbers.now }
{
    store_words(told, 0, numbers);
}

// A run of at most budget events of an events body.
#[tactic(auto, using(crate::proofs::EventLaws::small_result))]
pub fn floecavern_run(
    state: &mut [u8],
    base: u64,
    mem: &mut [u8],
    events: &[u8],
    budget: usize,
    ran: &mut [u8],
) -> u64
    ensures { RanOn events.now budget base state.old mem.old ran.old
        result state.new mem.new ran.new }
{
    if state.len() != STATE_SIZE || ran.len() != 16 {
        return BAD_SIZE;
    }
    let a = model::run::run(read_state(state), base, mem, events, budget);
    match a.verdict {
        Ok(()) => {
            write_state(state, a.state);
            tell(ran, &[a.performed as u64, 0]);
            0
        }
        Err(r) => {
            tell(ran, &[a.performed as u64, r.place as u64]);
            512 + r.number
        }
    }
}
