// The lines of a run, put into a lent buffer.
#![tactic(auto)]

ghost use Rattle.std.specs.Prelude.{◌≡◌, ◌+◌, ◌*◌, ◌-◌, ◌/◌, ◌≤◌, length, drop};
ghost use Rattle.machine.specs.State.{refusal_of};
ghost use Rattle.events.specs.Events.{events_of};
ghost use Rattle.model.specs.Perform.{run_of};
ghost use Rattle.text.specs.Put.{Put};
ghost use Rattle.lines.specs.Lines.{who_of, said_of, broke_text, line_of, lines_of, behind};

use events::Event;
use machine::State;
use model::advance::advance;
use model::{Outcome, Reply};
use text::{put_byte, put_bytes, put_decimal, put_hex};

// Whose event it is.
#[tactic(auto, using(text::proofs::PutLaws::then))]
fn put_who(out: &mut [u8], at: usize, e: Event) -> usize
    requires { at + 21 ≤ length out.old }
    ensures put { Put out.old at (who_of e) out.new result }
    ensures upper_bound { result ≤ at + 21 }
{
    match e {
        Event::Step { hart } => {
            let p = put_byte(out, at, b'h');
            put_decimal(out, p, hart as u64)
        }
        Event::Device { .. } => put_byte(out, at, b'd'),
        Event::Yield { hart } => {
            let p = put_byte(out, at, b'y');
            put_decimal(out, p, hart as u64)
        }
    }
}

// A trap's cause and value.
#[tactic(auto, using(text::proofs::PutLaws::then))]
pub fn put_trap(out: &mut [u8], at: usize, cause: u64, value: u64) -> usize
    requires { at + 43 ≤ length out.old }
    ensures put { Put out.old at (said_of (Outcome.Trap cause value)) out.new result }
    ensures upper_bound { result ≤ at + 43 }
{
    let p = put_bytes(out, at, b" trap ");
    let q = put_decimal(out, p, cause);
    let s = put_byte(out, q, b' ');
    put_hex(out, s, value, 16)
}

// What came of the event.
#[tactic(auto, using(text::proofs::PutLaws::then))]
fn put_said(out: &mut [u8], at: usize, o: Outcome) -> usize
    requires { at + 43 ≤ length out.old }
    ensures put { Put out.old at (said_of o) out.new result }
    ensures upper_bound { result ≤ at + 43 }
{
    match o {
        Outcome::Retired => put_bytes(out, at, b" ok"),
        Outcome::ScStored => put_bytes(out, at, b" sc 0"),
        Outcome::ScFailed => put_bytes(out, at, b" sc 1"),
        Outcome::Trap { cause, value } => put_trap(out, at, cause, value),
        Outcome::Refused { number } => {
            let p = put_bytes(out, at, b" refused ");
            put_decimal(out, p, number)
        }
    }
}

// The harts whose reservation the event broke, if there are any.
#[tactic(auto, using(text::proofs::PutLaws::then, text::proofs::PutLaws::none), unfolding(crate::specs::Lines::broke_text))]
fn put_broke(out: &mut [u8], at: usize, broke: u64) -> usize
    requires { at + 9 ≤ length out.old }
    ensures put { Put out.old at (broke_text broke) out.new result }
    ensures upper_bound { result ≤ at + 9 }
{
    if broke == 0 {
        return at;
    }
    let p = put_bytes(out, at, b" broke ");
    put_hex(out, p, broke, 2)
}

// The line of event number k.
#[tactic(auto, using(text::proofs::PutLaws::then), unfolding(crate::specs::Lines::line_of))]
fn put_line(out: &mut [u8], at: usize, k: u64, e: Event, r: Reply) -> usize
    requires { at + 95 ≤ length out.old }
    ensures put { Put out.old at (line_of k e r) out.new result }
    ensures upper_bound { result ≤ at + 95 }
{
    let p = put_decimal(out, at, k);
    let q = put_byte(out, p, b' ');
    let s = put_who(out, q, e);
    let t = put_said(out, s, r.outcome);
    let u = put_broke(out, t, r.broke);
    put_byte(out, u, b'\n')
}

// A line for each event of a body that refusal 11 does not name, performed one after another from a state and a memory that refusals 1 and 2 do
// not refuse. The memory is what stands in the buffer from `from` on, which the lines don't reach.
#[tactic(auto, using(crate::proofs::BehindLaws::back_within))]
pub fn put_lines(out: &mut [u8], at: usize, from: usize, s: State, base: u64, body: &[u8]) -> usize
    requires body_bound { (at + 95 * (length body.now / 24) ≤ from) × (from ≤ length out.old) }
    requires s_value { refusal_of base (length out.old - from) s ≡ 0 }
    ensures put { Put out.old at (lines_of base (behind s from out.old) 0 (events_of body.now)) out.new result }
    ensures upper_bound { result ≤ at + 95 * (length body.now / 24) }
    ensures out_after { drop from out.new ≡ (run_of base (behind s from out.old) (events_of body.now)).mem }
{
    let mut state = s;
    let mut p = at;
    for (i, bytes) in body.chunks_exact(24).enumerate() {
        let e = events::read_event(bytes);
        let r = advance(&mut state, base, &mut out[from..], e);
        p = put_line(&mut out[..from], p, i as u64, e, r);
    }
    p
}
