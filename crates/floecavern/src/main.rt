// floecavern < CASE: a case on standard input, its lines on standard output. floecavern SETTINGS BOARD < CASE: the same on a board of a settings file, by its
// number, from 0. What can't be read or written is told on standard error.
#![tactic(auto)]

ghost use Rattle.settings.specs.Boards.{BoardRules};

use arguments::{is_given, tell};
use board_choice::NoBoard;
use input::read_full;
use refusal::Refusal;
use settings::Board;

fn write_lines(rt: &HostRuntime, text: &[u8]) {
    if let Err(e) = rt.write_all(text) {
        tell(rt, &mut rt.stderr(), b"floecavern", b"standard output", e);
    }
}

fn run(rt: &HostRuntime, board: Board)
    requires { BoardRules board }
{
    // one byte more than a case may have, so that a longer file is seen to be longer
    let mut space = [0u8; 65537];
    let n = match read_full(&mut rt.stdin(), &mut space) {
        Ok(n) => n,
        Err(e) => {
            tell(rt, &mut rt.stderr(), b"floecavern", b"standard input", e);
            return;
        }
    };
    let mut out = [0u8; 262144];
    let r = report::report_on(board, &space[..n], &mut out);
    write_lines(rt, &out[..r]);
}

// The line of a settings file that is refused: the case isn't read.
fn refuse(rt: &HostRuntime, refusal: Refusal) {
    let mut out = [0u8; 50];
    let r = report::put_refused(&mut out, 0, refusal);
    write_lines(rt, &out[..r]);
}

fn run_on_board(rt: &HostRuntime) {
    match board_choice::chosen(rt, &mut rt.stderr(), b"floecavern", 1, 2) {
        Ok(board) => run(rt, board),
        Err(NoBoard::Refused(refusal)) => refuse(rt, refusal),
        Err(NoBoard::Told) => {}
    }
}

fn main(rt: HostRuntime) {
    if !is_given(&rt, 1) {
        run(&rt, settings::default_board());
        return;
    }
    if is_given(&rt, 2) && !is_given(&rt, 3) {
        run_on_board(&rt);
        return;
    }
    let _ = eprintln!(rt; "use: floecavern [SETTINGS BOARD] < CASE");
}
