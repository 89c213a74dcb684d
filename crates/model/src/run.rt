// Runs of an events body, in place.
ghost use Rattle.std.specs.Prelude.{◌≡◌, ◌*◌, ◌≤◌, Err, length};
ghost use Rattle.events.specs.Events.{first_events};
ghost use Rattle.model.specs.Perform.{run_of};
ghost use Rattle.model.specs.Valid.{Valid};
ghost use Rattle.model.specs.Run.{result_of};

use crate::Ran;
use crate::advance::advance;
use machine::State;
use refusal::Refusal;

fn refused_run(number: u64, place: usize, s: State) -> Ran
    ensures { result ≡ record { verdict = Err (record { number = number; place = place }); performed = 0; state = s } }
{
    Ran {
        verdict: Err(Refusal { number, place }),
        performed: 0,
        state: s,
    }
}

// The first n events of a body that refusal 11 does not name, in place.
fn perform_first(s: &mut State, base: u64, mem: &mut [u8], body: &[u8], n: usize)
    requires valid { Valid base (record { state = s.old; mem = mem.old }) }
    requires n_in_bounds { n * 24 ≤ length body.now }
    ensures { record { state = s.new; mem = mem.new } ≡ run_of base (record { state = s.old; mem = mem.old }) (first_events n body.now) }
{
    for bytes in body.chunks_exact(24).take(n) {
        let e = events::read_event(bytes);
        advance(s, base, mem, e);
    }
}

// A run of at most budget events. It tries refusals 1 and 2, then the whole body by 11, before it performs any.
pub fn run(s: State, base: u64, mem: &mut [u8], body: &[u8], budget: usize) -> Ran
    ensures value { result ≡ (result_of base mem.old s body.now budget).ran }
    ensures mem_after { mem.new ≡ (result_of base mem.old s body.now budget).mem }
{
    if let Some(number) = machine::refusal(base, mem.len(), &s) {
        return refused_run(number, 0, s);
    }
    if let Err(place) = events::check(body, s.count, base, mem.len()) {
        return refused_run(11, place, s);
    }
    let n = budget.min(body.len() / 24);
    let mut state = s;
    perform_first(&mut state, base, mem, body, n);
    Ran {
        verdict: Ok(()),
        performed: n,
        state,
    }
}
