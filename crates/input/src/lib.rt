// What a program is given by a reader, with a read that fails told apart from the end of the input.
#![tactic(auto)]

ghost use Rattle.std.specs.Prelude.{◌≡◌, ◌<◌, IsSome, IfOk, OnErr, length, take};
ghost use Rattle.std.specs.Io.{ReadsAtMost};
ghost use Rattle.std.specs.Io.KnownBytes.{Consumes, IsAtEnd};
ghost use Rattle.io.specs.Counts.{IsPrefixLen};

use std::io;
use std::io::{Error, Read};

// How many bytes were read, and why a read failed before the end, if one did. Both, and no Result: of bytes read before a failure too `bytes` of read_input says
// where they are.
#[derive(Drop)]
pub struct Input {
    pub length: usize,
    pub why: Option<Error>,
}

// Reads until buf is full, the input ends or a read fails. The bytes are put at the start of buf. Once it is full nothing more is asked for, so
// that no failure behind it is told.
pub fn read_input<R: Read>(reader: &mut R, buf: &mut [u8]) -> Input
    ensures prefix_len { IsPrefixLen result.length buf.new }
    ensures length_in_bounds { IsSome result.why → result.length < length buf.new }
    ensures bytes { Consumes (R.remaining reader.old) (R.remaining reader.new) (take result.length buf.new) }
    ensures end { result.why ≡ None → result.length < length buf.new → IsAtEnd (R.remaining reader.new) }
{
    // A while: how many bytes a read gives decides where the next one begins, and how many reads there are.
    let mut length = 0;
    while length < buf.len() {
        match reader.read(&mut buf[length..]) {
            Ok(0) => break,
            Ok(more) => {
                length += more;
            }
            Err(e) => {
                return Input {
                    length,
                    why: Some(e),
                };
            }
        }
    }
    Input { length, why: None }
}

// The same, with a read that fails as an error: how many bytes were read.
pub fn read_full<R: Read>(reader: &mut R, buf: &mut [u8]) -> io::Result<usize>
    ensures bound { ReadsAtMost result buf.new }
    ensures bytes { IfOk result (λ n. Consumes (R.remaining reader.old) (R.remaining reader.new) (take n buf.new)) }
    ensures end { IfOk result (λ n. n < length buf.new → IsAtEnd (R.remaining reader.new)) }
    ensures err { OnErr result (0 < length buf.new) }
{
    let got = read_input(reader, buf);
    match got.why {
        None => Ok(got.length),
        Some(e) => Err(e),
    }
}
