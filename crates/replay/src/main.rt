// replay CASE LOG: replays a board's log, of any size, from the harts and the memory of a case file, and writes the answer on standard output. replay CASE LOG
// SETTINGS BOARD: the same on a board of a settings file, by its number, from 0. What can't be read or written is told on standard error; then there is no
// answer.
#![tactic(auto)]

ghost use Rattle.std.specs.Prelude.{◌≡◌, ◌+◌, ◌/◌, ◌%◌, ◌^◌, ◌<◌, ◌≤◌, IfOk, IfSome, length};
ghost use Rattle.settings.specs.Boards.{BoardRules};

use arguments::{is_given, open_file, read_file, text_of};
use board_choice::NoBoard;
use casefile::Case;
use input::read_full;
use machine::State;
use refusal::Refusal;
use rows::{Replayed, Stop};
use settings::Board;
use std::fs::File;
use std::io;
use std::io::{Error, ErrorKind, Seek, SeekFrom, Write};

// Why a log has no answer: the system says what is wrong with it; it can't be read twice; or it isn't as long the second time as it was the first.
#[derive(Drop)]
enum NoAnswer {
    Failed(Error),
    ReadOnce,
    Shorter,
    Longer,
}

impl From<Error> for NoAnswer {
    fn from(why: Error) -> NoAnswer {
        NoAnswer::Failed(why)
    }
}

// How many rows a log has, how many of them come before the stop, and the stop.
#[derive(Clone, Copy)]
struct Answer {
    all: u64,
    rows: u64,
    stop: Stop,
}

// The answer of a settings file, a case or a log that is refused.
fn refused(r: Refusal) -> Answer {
    Answer {
        all: 0,
        rows: 0,
        stop: Stop::Refused(r),
    }
}

// What the system says went wrong with a file.
fn tell(rt: &HostRuntime, what: &[u8], why: Error) {
    arguments::tell(rt, &mut rt.stderr(), b"replay", what, why);
}

// What went wrong with a file where the system says nothing. Its path is bytes, so no format writes it.
fn write_of(rt: &HostRuntime, path: &[u8], what: &[u8]) -> io::Result<()> {
    let mut err = rt.stderr();
    err.write_all(b"replay: ")?;
    err.write_all(path)?;
    err.write_all(what)
}

fn tell_no_answer(rt: &HostRuntime, path: &[u8], why: NoAnswer) {
    let what: &[u8] = match why {
        NoAnswer::Failed(e) => return tell(rt, path, e),
        NoAnswer::ReadOnce => b" can't be read twice, as a log is\n",
        NoAnswer::Shorter => b" became shorter while it was read\n",
        NoAnswer::Longer => b" became longer while it was read\n",
    };
    let _ = write_of(rt, path, what);
}

fn write_answer(rt: &HostRuntime, a: Answer) {
    let mut out = [0u8; 128];
    let n = case_replay::answer_text(a.all, a.rows, a.stop, &mut out);
    if let Err(e) = Print::write_all(rt, &out[..n]) {
        tell(rt, b"standard output", e);
    }
}

// The first pass: how long the log is, if it can be read, which 12 and 13 ask before any row is looked at. The bound on the parts is beyond any file.
fn size_of(log: &mut File) -> io::Result<u64>
    ensures { IfOk result (λ bytes. bytes < 2 ^ 63) }
{
    let mut part = [0u8; 65536];
    for before in 0..100000000000000u64 {
        let n = read_full(log, &mut part)?;
        if n < 65536 {
            return Ok(before * 65536 + n as u64);
        }
    }
    Err(Error::from(ErrorKind::FileTooLarge))
}

// Back to the start of the log, for the second pass.
fn rewind(log: &mut File) -> Result<(), NoAnswer> {
    match log.seek(SeekFrom::Start(0)) {
        Ok(0) => Ok(()),
        _ => Err(NoAnswer::ReadOnce),
    }
}

// One part of the second pass, before which there are so many rows. The part is as long as its rows.
fn replay_part(
    log: &mut File,
    part: &mut [u8],
    before: usize,
    s: State,
    base: u64,
    mem: &mut [u8],
) -> Result<Replayed, NoAnswer>
    requires part_bound { before + length part.old / 48 < 2 ^ 64 }
    requires part_len { (length part.old % 48 ≡ 0) × (0 < length part.old) }
{
    let n = read_full(log, part)?;
    if n < part.len() {
        return Err(NoAnswer::Shorter);
    }
    Ok(case_replay::replay_next(before, s, base, mem, part))
}

// The log has to end here, as it did in the first pass.
fn expect_end(log: &mut File) -> Result<(), NoAnswer> {
    let mut space = [0u8; 1];
    match read_full(log, &mut space)? {
        0 => Ok(()),
        _ => Err(NoAnswer::Longer),
    }
}

// The second pass: all rows of the log, in parts of 1,365 rows, 65,520 bytes.
fn replay_parts(
    log: &mut File,
    s: State,
    base: u64,
    mem: &mut [u8],
    all: usize,
) -> Result<Replayed, NoAnswer> {
    let mut space = [0u8; 65520];
    let mut r = Replayed {
        stop: Stop::Agreed,
        rows: 0,
        state: s,
    };
    for i in 0..all.div_ceil(1365) {
        let before = 1365 * i;
        let want = (all - before).min(1365);
        r = replay_part(log, &mut space[..48 * want], before, r.state, base, mem)?;
        if !matches!(r.stop, Stop::Agreed) {
            return Ok(r);
        }
    }
    expect_end(log)?;
    Ok(r)
}

// The case that a file is, where 7 to 11 don't refuse it, and 12 and 13 don't refuse a log of so many bytes.
fn accepted_case(board: Board, file: &[u8], bytes: u64) -> Result<Case, Refusal>
    requires { BoardRules board }
    ensures { IfOk result (λ c. (c.memory ≤ c.events) × (c.events ≤ length file.now)) }
{
    let c = casefile::read_case_on(board, file)?;
    if bytes % 48 != 0 {
        return Err(Refusal {
            number: 12,
            place: 0,
        });
    }
    if bytes == 0 {
        return Err(Refusal {
            number: 13,
            place: 0,
        });
    }
    Ok(c)
}

// A log of so many bytes, read from its start, on the case that a file is.
fn replay_file(
    board: Board,
    file: &mut [u8],
    log: &mut File,
    bytes: u64,
) -> Result<Answer, NoAnswer>
    requires { BoardRules board }
{
    let c = match accepted_case(board, file, bytes) {
        Ok(c) => c,
        Err(r) => return Ok(refused(r)),
    };
    let all = bytes / 48;
    let memory = &mut file[c.memory..c.events];
    let r = replay_parts(log, c.state, c.base, memory, all as usize)?;
    Ok(Answer {
        all,
        rows: r.rows as u64,
        stop: r.stop,
    })
}

// The log is read twice, from its start.
fn replay_log(
    rt: &HostRuntime,
    board: Board,
    file: &mut [u8],
    path: &[u8],
) -> Result<Answer, NoAnswer>
    requires { BoardRules board }
{
    let mut log = open_file(rt, path)?;
    let bytes = size_of(&mut log)?;
    rewind(&mut log)?;
    replay_file(board, file, &mut log, bytes)
}

fn replay_files(rt: &HostRuntime, board: Board, case: &[u8], log: &[u8])
    requires { BoardRules board }
{
    // one byte more than a case may have, so that a longer file is seen to be longer
    let mut space = [0u8; 65537];
    let Some(n) = read_file(rt, &mut rt.stderr(), b"replay", case, &mut space) else {
        return;
    };
    match replay_log(rt, board, &mut space[..n], log) {
        Ok(a) => write_answer(rt, a),
        Err(why) => tell_no_answer(rt, log, why),
    }
}

// Puts an argument at the start of buf: how many bytes it has. One that can't be had is told of.
fn path_of(rt: &HostRuntime, i: usize, name: &[u8], buf: &mut [u8]) -> Option<usize>
    ensures { IfSome result (λ n. n ≤ length buf.new) }
{
    match text_of(rt, i, buf) {
        Ok(n) => Some(n),
        Err(e) => {
            tell(rt, name, e);
            None
        }
    }
}

// Replays the log that the arguments name.
fn run(rt: &HostRuntime, board: Board)
    requires { BoardRules board }
{
    let mut case = [0u8; 4096];
    let Some(n) = path_of(rt, 1, b"CASE", &mut case) else {
        return;
    };
    let mut log = [0u8; 4096];
    let Some(m) = path_of(rt, 2, b"LOG", &mut log) else {
        return;
    };
    replay_files(rt, board, &case[..n], &log[..m]);
}

// Where the settings file is refused, neither the case nor the log is read.
fn run_on_board(rt: &HostRuntime) {
    match board_choice::chosen(rt, &mut rt.stderr(), b"replay", 3, 4) {
        Ok(board) => run(rt, board),
        Err(NoBoard::Refused(r)) => write_answer(rt, refused(r)),
        Err(NoBoard::Told) => {}
    }
}

#[tactic(auto, using(settings::proofs::SettingsLaws::default_board_allowed))]
fn main(rt: HostRuntime) {
    if is_given(&rt, 2) && !is_given(&rt, 3) {
        run(&rt, settings::default_board());
    } else if is_given(&rt, 4) && !is_given(&rt, 5) {
        run_on_board(&rt);
    } else {
        let _ = eprintln!(rt; "use: replay CASE LOG [SETTINGS BOARD]");
    }
}
