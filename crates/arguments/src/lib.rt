// What a program is given as arguments: a number, or a file by its path.
#![tactic(auto)]

ghost use Rattle.std.specs.Prelude.{◌≡◌, cond, ◌⊎◌, ◌≤◌, IfSome};
ghost use Rattle.std.specs.Io.{ReadsAtMost};
ghost use Rattle.std.specs.Str.{IsUtf8};
ghost use Rattle.std.specs.Result.{IsErr};
ghost use Rattle.io.specs.Counts.{IsPrefixLen};
ghost use Rattle.text.specs.Number.{digit_of};
ghost use Rattle.steplog.specs.Digits.{is_digit};
ghost use Rattle.arguments.specs.Numbers.{number_said};

use input::read_full;
use std::env::FillError;
use std::io::{Error, ErrorKind, Write};
use std::rt::{Env, Files};
use std::{fs, io, str};

// The system's numbers of the errors that an argument is told of with. Numbers and no kinds of std's, since those have other words for programs to write.
const EINVAL: i32 = 22;

const ENAMETOOLONG: i32 = 36;

// A decimal digit's value.
fn digit(c: u8) -> Option<u64>
    ensures { result ≡ cond (is_digit 10 c) (Some (digit_of c)) None }
{
    if c.is_ascii_digit() {
        Some(u64::from(c - b'0'))
    } else {
        None
    }
}

// The number that a text says, if digits say one. All numbers from 1,000 on count as 1,000: none of them is a version, a kind or a board.
pub fn number_in(text: &[u8]) -> Option<u64>
    ensures { result ≡ number_said text.now }
{
    if text.is_empty() {
        return None;
    }
    let mut value: u64 = 0;
    for &c in text {
        let d = digit(c)?;
        value = (value * 10 + d).min(1000);
    }
    Some(value)
}

// Whether there is an argument with this number. The program's own name has number 0.
pub fn is_given<R: Env>(rt: &R, i: usize) -> bool {
    let mut first = [0u8; 1];
    !matches!(rt.arg(i, &mut first), Err(FillError::NotPresent))
}

// Puts an argument at the start of buf: how many bytes it has. Where there is none, and where buf hasn't the room, that is an error.
pub fn text_of<R: Env>(rt: &R, i: usize, buf: &mut [u8]) -> io::Result<usize>
    ensures { ReadsAtMost result buf.new }
{
    match rt.arg(i, buf) {
        Ok(n) => Ok(n),
        Err(FillError::NotPresent) => Err(Error::from_raw_os_error(EINVAL)),
        Err(FillError::TooLong) => Err(Error::from_raw_os_error(ENAMETOOLONG)),
    }
}

// The number that an argument says, or the other where there is no such argument.
pub fn argument<R: Env>(rt: &R, i: usize, other: u64) -> Option<u64>
    ensures { IfSome result (λ n. (n ≤ 1000) ⊎ (n ≡ other)) }
{
    let mut text = [0u8; 4096];
    match rt.arg(i, &mut text) {
        Ok(n) => number_in(&text[..n]),
        Err(FillError::NotPresent) => Some(other),
        Err(FillError::TooLong) => None,
    }
}

// What stands before the number that std puts behind the system's words for an error.
fn words_of(all: &str) -> &str {
    all.split_once(" (os error ")
        .map_or(all, |(words, _)| words)
}

// Writes the system's words for an error, with std's number behind them where there is no memory to leave it out.
fn write_why<R: Alloc, W: Write>(rt: &R, err: &mut W, why: Error) -> io::Result<()> {
    match format!(in rt.alloc(); "{why}") {
        Ok(all) => err.write_all(words_of(all.as_str()).as_bytes()),
        Err(_) => write!(err, "{why}"),
    }
}

fn write_failure<R: Alloc, W: Write>(
    rt: &R,
    err: &mut W,
    what: &[u8],
    why: Error,
) -> io::Result<()> {
    err.write_all(what)?;
    err.write_all(b": ")?;
    write_why(rt, err, why)?;
    err.write_all(b"\n")
}

// What the system says went wrong with something. Where it can't be told, there is nothing more to do.
pub fn tell_failure<R: Alloc, W: Write>(rt: &R, err: &mut W, what: &[u8], why: Error) {
    let _ = write_failure(rt, err, what, why);
}

// The same, under the program's name. rt, err and program go through three functions and into no struct: it would lend a writer, of which no contract speaks.
pub fn tell<R: Alloc, W: Write>(rt: &R, err: &mut W, program: &[u8], what: &[u8], why: Error) {
    let _ = err.write_all(program);
    let _ = err.write_all(b": ");
    tell_failure(rt, err, what, why);
}

// Opens a file by its path. std's paths are UTF-8 text, and no other is tried.
pub fn open_file<R: Files>(rt: &R, path: &[u8]) -> io::Result<R::File>
    ensures { ¬ (IsUtf8 path.now) → IsErr result }
{
    match str::from_utf8(path) {
        Ok(text) => fs::open(rt, text),
        Err(_) => Err(Error::from(ErrorKind::InvalidFilename)),
    }
}

// Reads a file by its path to the start of buf, which may have room for some of its bytes only: how many were read.
fn read_path<R: Files>(rt: &R, path: &[u8], buf: &mut [u8]) -> io::Result<usize>
    ensures { ReadsAtMost result buf.new }
{
    let mut file = open_file(rt, path)?;
    read_full(&mut file, buf)
}

// The same, with a file that can't be read told of.
pub fn read_file<R: Files + Alloc, W: Write>(
    rt: &R,
    err: &mut W,
    program: &[u8],
    path: &[u8],
    buf: &mut [u8],
) -> Option<usize>
    ensures { IfSome result (λ n. IsPrefixLen n buf.new) }
{
    match read_path(rt, path, buf) {
        Ok(n) => Some(n),
        Err(e) => {
            tell(rt, err, program, path, e);
            None
        }
    }
}
