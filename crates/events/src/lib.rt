// Events, and the bytes that hold them: refusal 11.
#![tactic(auto)]

ghost use Rattle.std.specs.Prelude.{◌≡◌, ◌+◌, ◌≤◌, length, drop};
ghost use Rattle.word.specs.Bytes.{le};
ghost use Rattle.word.specs.Memory.{part};
ghost use Rattle.events.specs.Events.{hart_event, device_event, good_event, checked_of, event_of, Within};

use word::bytes::{load_at, load_le};

// A hart's step; a device write of the size lowest bytes of data, the first byte lowest; a yield, which drops a hart's reservation.
#[derive(Clone, Copy)]
pub enum Event {
    Step { hart: usize },
    Device { addr: u64, size: usize, data: u64 },
    Yield { hart: usize },
}

// Whether the fields of a step or a yield are right. 24 bytes as a clause, here and below, not as `&[u8; 24]`: events are cut out of a lent body.
#[tactic(auto, unfolding(crate::specs::Events::hart_event))]
fn hart_event(e: &[u8], count: usize) -> bool
    requires { length e.now ≡ 24 }
    ensures { result ≡ hart_event count e.now }
{
    usize::from(e[1]) < count && e[2] == 0 && load_at(e, 8, 8) == 0 && load_at(e, 16, 8) == 0
}

// Whether the fields of a device write are right, and the bytes of its data above its size zero.
#[tactic(auto, unfolding(crate::specs::Events::device_event))]
fn device_event(e: &[u8], base: u64, len: usize) -> bool
    requires { length e.now ≡ 24 }
    ensures { result ≡ device_event base len e.now }
{
    let size = e[2];
    e[1] == 0
        && 1 <= size
        && size <= 8
        && reserve::inside(base, len as u64, load_at(e, 8, 8), u64::from(size))
        && load_le(&e[16 + usize::from(size)..]) == 0
}

// Whether refusal 11 does not name an event.
#[tactic(auto, unfolding(crate::specs::Events::good_event))]
fn good_event(e: &[u8], count: usize, base: u64, len: usize) -> bool
    requires { length e.now ≡ 24 }
    ensures { result ≡ good_event count base len e.now }
{
    load_at(e, 3, 5) == 0
        && match e[0] {
            1 | 3 => hart_event(e, count),
            2 => device_event(e, base, len),
            _ => false,
        }
}

// Refusal 11 of an events body, with the place of the first bad event, counted from the body's first byte.
#[tactic(auto, unfolding(crate::specs::Events::checked_of))]
pub fn check(body: &[u8], count: usize, base: u64, len: usize) -> Result<(), usize>
    ensures value { result ≡ checked_of count base len body.now }
    ensures within { Within result (length body.now) }
{
    if body.len() % 24 != 0 {
        return Err(0);
    }
    for (i, e) in body.chunks_exact(24).enumerate() {
        if !good_event(e, count, base, len) {
            return Err(24 * i);
        }
    }
    Ok(())
}

// The event that 24 bytes are, where refusal 11 does not name them.
#[tactic(auto, unfolding(crate::specs::Events::event_of))]
pub fn read_event(e: &[u8]) -> Event
    requires { length e.now ≡ 24 }
    ensures { result ≡ event_of e.now }
{
    let hart = usize::from(e[1]);
    match e[0] {
        1 => Event::Step { hart },
        2 => Event::Device {
            addr: load_at(e, 8, 8),
            size: usize::from(e[2]),
            data: load_at(e, 16, 8),
        },
        _ => Event::Yield { hart },
    }
}
