// The board that a program runs on, by two of its arguments: SETTINGS, a settings file, and BOARD, the number of one of its boards, from 0.
#![tactic(auto)]

ghost use Rattle.std.specs.Prelude.{◌≡◌};
ghost use Rattle.boards.specs.File.{Kept};
ghost use Rattle.board_choice.specs.Choice.{choice_of, Allowed};
ghost use Rattle.board_choice.specs.declared.NoBoard.TheVariants.{Refused};

use arguments::{argument, read_file, tell, text_of};
use boards::SettingsFile;
use refusal::Refusal;
use settings::Board;
use std::io;
use std::io::Write;
use std::rt::{Env, Files};

// Why there is no board: the arguments say nothing that can be followed, which is told on standard error, or the settings file is refused.
#[derive(Clone, Copy, PartialEq, Eq)]
pub enum NoBoard {
    Told,
    Refused(Refusal),
}

impl From<Refusal> for NoBoard {
    ghost from_gives = { λ refusal e. e ≡ Refused refusal };

    fn from(refusal: Refusal) -> NoBoard {
        NoBoard::Refused(refusal)
    }
}

fn write_board<W: Write>(err: &mut W, program: &[u8], count: usize) -> io::Result<()> {
    err.write_all(program)?;
    writeln!(
        err,
        ": BOARD is not a number below {count}, as many boards as SETTINGS has"
    )
}

// A BOARD that the settings file, which has so many, hasn't.
fn tell_board<W: Write>(err: &mut W, program: &[u8], count: usize) {
    let _ = write_board(err, program, count);
}

// The board of a settings file, by the number that is said. A number that isn't a board's is told of.
fn pick<W: Write>(
    err: &mut W,
    program: &[u8],
    read: Result<SettingsFile, Refusal>,
    said: Option<u64>,
) -> Result<Board, NoBoard>
    requires { Kept read }
    ensures value { result ≡ choice_of read said }
    ensures allowed { Allowed result }
{
    let file = read?;
    match said {
        Some(k) if k < file.count as u64 => Ok(file.boards[k as usize]),
        _ => {
            tell_board(err, program, file.count);
            Err(NoBoard::Told)
        }
    }
}

// What the arguments with these numbers say. The file is read first: of a long one 4,096 bytes, which get the answer of the whole (cut-same of
// proofs/Cut.antt).
pub fn chosen<R: Env + Files + Alloc, W: Write>(
    rt: &R,
    err: &mut W,
    program: &[u8],
    settings: usize,
    board: usize,
) -> Result<Board, NoBoard>
    ensures { Allowed result }
{
    let mut path = [0u8; 4096];
    let n = match text_of(rt, settings, &mut path) {
        Ok(n) => n,
        Err(e) => {
            tell(rt, err, program, b"SETTINGS", e);
            return Err(NoBoard::Told);
        }
    };
    let mut space = [0u8; 4096];
    let Some(m) = read_file(rt, err, program, &path[..n], &mut space) else {
        return Err(NoBoard::Told);
    };
    let read = boards::read_settings(&space[..m]);
    pick(err, program, read, argument(rt, board, 0))
}
