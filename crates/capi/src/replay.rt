// A log replayed on a machine whose state the caller keeps as bytes.
ghost use Rattle.std.specs.Prelude.{◌≡◌};
ghost use Rattle.rows.specs.Numbers.{stop_code, board_of, model_of};
ghost use Rattle.capi.specs.Replay.{is_replayed, SmallStop, ReplayedOn};

use crate::BAD_SIZE;
use crate::steps::{tell, write_if};
use layout::{STATE_SIZE, read_state};
use rows::Stop;

// Why a replay ended, as a number.
fn stop_code(s: Stop) -> u64
    requires { SmallStop s }
    ensures { result ≡ stop_code s }
{
    match s {
        Stop::Agreed => 0,
        Stop::Form => 1,
        Stop::Pc { .. } => 2,
        Stop::Word { .. } => 3,
        Stop::Trap { cause, .. } => 256 + cause,
        Stop::Rd { .. } => 4,
        Stop::Value { .. } => 5,
        Stop::Refused(r) => 512 + r.number,
    }
}

// The board's and the model's value of a difference, or zeros; of a trap, its value stands for the model's.
fn values_of(s: Stop) -> (u64, u64)
    ensures board { result.0 ≡ board_of s }
    ensures model { result.1 ≡ model_of s }
{
    match s {
        Stop::Pc { board, model }
        | Stop::Word { board, model }
        | Stop::Rd { board, model }
        | Stop::Value { board, model } => (board, model),
        Stop::Trap { value, .. } => (0, value),
        Stop::Agreed | Stop::Form | Stop::Refused(_) => (0, 0),
    }
}

// Whether a replay was not refused.
fn is_replayed(s: Stop) -> bool
    ensures { result ≡ is_replayed s }
{
    !matches!(s, Stop::Refused(_))
}

// A log of rows of 48 bytes, up to the first row that does not agree with the model.
#[tactic(auto, using(crate::proofs::ReplayLaws::small_replay))]
pub fn floecavern_replay(
    state: &mut [u8],
    base: u64,
    mem: &mut [u8],
    log: &[u8],
    told: &mut [u8],
) -> u64
    ensures { ReplayedOn log.now base state.old mem.old told.old
        result state.new mem.new told.new }
{
    if state.len() != STATE_SIZE || told.len() != 24 {
        return BAD_SIZE;
    }
    let a = rows::replay(read_state(state), base, mem, log);
    write_if(is_replayed(a.stop), state, a.state);
    let (board, model) = values_of(a.stop);
    tell(told, &[a.rows as u64, board, model]);
    stop_code(a.stop)
}
