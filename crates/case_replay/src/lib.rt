// A board's log replayed from a case file, and the answer as text.
#![tactic(auto)]

pub mod answer;

ghost use Rattle.std.specs.Prelude.{◌≡◌, ◌+◌, ◌/◌, ◌%◌, ◌^◌, ◌<◌, length, take};
ghost use Rattle.io.specs.Counts.{IsPrefixLen};
ghost use Rattle.case_replay.specs.CaseReplay.{file_replay_on, file_replay};
ghost use Rattle.settings.specs.Boards.{BoardRules};
ghost use Rattle.rows.specs.Replay.{replay_of, joined};
ghost use Rattle.case_replay.specs.Answer.{answer_text, replay_text_of};

use machine::State;
use rows::{Replayed, Stop};
use settings::Board;

// Replays a log on a board from the harts and the memory of a case file, which is changed in place. The case's events are checked and not performed.
#[tactic(auto, unfolding(crate::specs::CaseReplay::file_replay_on))]
pub fn replay_case_on(board: Board, file: &mut [u8], log: &[u8]) -> Replayed
    requires { BoardRules board }
    ensures value { result ≡ (file_replay_on board file.old log.now).replayed }
    ensures file_after { file.new ≡ (file_replay_on board file.old log.now).file }
{
    match casefile::read_case_on(board, file) {
        Ok(c) => rows::replay(c.state, c.base, &mut file[c.memory..c.events], log),
        Err(r) => Replayed {
            stop: Stop::Refused(r),
            rows: 0,
            state: casefile::no_state(),
        },
    }
}

// The same where no board is given. README and docs name it beside the one on a board.
#[tactic(auto, using(settings::proofs::SettingsLaws::default_board_allowed))]
pub fn replay_case(file: &mut [u8], log: &[u8]) -> Replayed
    ensures value { result ≡ (file_replay file.old log.now).replayed }
    ensures file_after { file.new ≡ (file_replay file.old log.now).file }
{
    replay_case_on(settings::default_board(), file, log)
}

// The next part of a log that comes in parts, of one row or more, where the rows before it agreed and left this state and this memory: so 1 and
// 2 refuse nothing, and neither do 12 and 13.
#[tactic(auto, using(crate::proofs::RowsLaws::rows_le))]
pub fn replay_next(before: usize, s: State, base: u64, mem: &mut [u8], part: &[u8]) -> Replayed
    requires part_bound { before + length part.now / 48 < 2 ^ 64 }
    requires part_len { (length part.now % 48 ≡ 0) × (0 < length part.now) }
    ensures value { result ≡ (joined before (replay_of base mem.old s part.now)).replayed }
    ensures mem_after { mem.new ≡ (joined before (replay_of base mem.old s part.now)).mem }
{
    let r = rows::replay(s, base, mem, part);
    Replayed {
        stop: r.stop,
        rows: before + r.rows,
        state: r.state,
    }
}

// The text of an answer: as many bytes of out as the result says. all is the number of rows of the log, k that of the rows before the stop.
pub fn answer_text(all: u64, k: u64, stop: Stop, out: &mut [u8; 128]) -> usize
    ensures prefix_len { IsPrefixLen result out.new }
    ensures out_after { take result out.new ≡ answer_text all k stop }
{
    answer::put_answer(out, 0, all, k, stop)
}

// The text of any two inputs: as many bytes of out as the result says. The program, which reads a log in parts, has to write the same where no board is given.
#[tactic(auto, unfolding(crate::specs::Answer::replay_text_of))]
pub fn replay_report(file: &mut [u8], log: &[u8], out: &mut [u8; 128]) -> usize
    ensures prefix_len { IsPrefixLen result out.new }
    ensures out_after { take result out.new ≡ replay_text_of file.old log.now }
    ensures file_after { file.new ≡ (file_replay file.old log.now).file }
{
    let r = replay_case(file, log);
    answer_text((log.len() / 48) as u64, r.rows as u64, r.stop, out)
}
