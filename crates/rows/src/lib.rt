// Rows of a board's log, replayed on the machine.
#![tactic(auto)]

pub mod row;

ghost use Rattle.std.specs.Prelude.{◌≡◌, ◌/◌, length};
ghost use Rattle.model.specs.Valid.{Valid};
ghost use Rattle.rows.specs.Replay.{readings, end_of, ended, replay_of};

use machine::State;
use refusal::Refusal;

// Why a replay ended: all rows agreed, or the first row that did not. Of a difference, the row's own value comes first, the model's second.
// The place of a refusal by 7 to 11 is one in a case file; that of the others is 0.
// Four differences are four ends and no one end with a field in it: so the theorems of replay_words name them, and C has a number for each.
#[derive(Clone, Copy)]
pub enum Stop {
    Agreed,
    Form,
    Pc { board: u64, model: u64 },
    Word { board: u64, model: u64 },
    Trap { cause: u64, value: u64 },
    Rd { board: u64, model: u64 },
    Value { board: u64, model: u64 },
    Refused(Refusal),
}

// rows counts those before the stop, and the state is the one after exactly those.
#[derive(Clone, Copy)]
pub struct Replayed {
    pub stop: Stop,
    pub rows: usize,
    pub state: State,
}

fn refused(number: u64, state: State) -> Replayed
    ensures { result ≡ record { stop = Stop.Refused (record { number = number; place = 0 }); rows = 0; state = state } }
{
    Replayed {
        stop: Stop::Refused(Refusal { number, place: 0 }),
        rows: 0,
        state,
    }
}

// The rows of a log.
fn replay_rows(state: State, base: u64, mem: &mut [u8], log: &[u8]) -> Replayed
    requires { Valid base (record { state = state; mem = mem.old }) }
    ensures { record { replayed = result; mem = mem.new }
        ≡ ended (end_of base (record { state = state; mem = mem.old }) (readings state.count (length log.now / 48) log.now)) }
{
    let mut s = state;
    for (i, part) in log.chunks_exact(48).enumerate() {
        if let Err(stop) = row::compare(&mut s, base, mem, part) {
            return Replayed {
                stop,
                rows: i,
                state: s,
            };
        }
    }
    Replayed {
        stop: Stop::Agreed,
        rows: log.len() / 48,
        state: s,
    }
}

// Replays a log of rows from a state and the memory at base, up to the first row that does not agree with the model.
#[tactic(auto, unfolding(crate::specs::Replay::replay_of))]
pub fn replay(s: State, base: u64, mem: &mut [u8], log: &[u8]) -> Replayed
    ensures value { result ≡ (replay_of base mem.old s log.now).replayed }
    ensures mem_after { mem.new ≡ (replay_of base mem.old s log.now).mem }
{
    if let Some(number) = machine::refusal(base, mem.len(), &s) {
        return refused(number, s);
    }
    if log.len() % 48 != 0 {
        return refused(12, s);
    }
    if log.is_empty() {
        return refused(13, s);
    }
    replay_rows(s, base, mem, log)
}
