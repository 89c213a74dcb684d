// An answer of the checker of retry loops as a line, put into a lent buffer.
#![tactic(auto)]

ghost use Rattle.std.specs.Prelude.{◌≡◌, ◌≤◌, length, take};
ghost use Rattle.io.specs.Counts.{IsPrefixLen};
ghost use Rattle.text.specs.Put.{Put};
ghost use Rattle.loop_line.specs.Line.{loop_line};

use retry::LoopAnswer;
use text::{put_byte, put_bytes, put_decimal};

// The line of a block that is not accepted.
#[tactic(auto, using(text::proofs::PutLaws::then))]
fn put_rejected(out: &mut [u8], place: usize, reason: u64) -> usize
    requires { 51 ≤ length out.old }
    ensures put { Put out.old 0 (loop_line (LoopAnswer.Rejected place reason)) out.new result }
    ensures upper_bound { result ≤ 51 }
{
    let p = put_bytes(out, 0, b"rejected ");
    let q = put_decimal(out, p, place as u64);
    let s = put_byte(out, q, b' ');
    let t = put_decimal(out, s, reason);
    put_byte(out, t, b'\n')
}

// The line of a block that is refused.
#[tactic(auto, using(text::proofs::PutLaws::then))]
fn put_refused(out: &mut [u8], number: u64) -> usize
    requires { 51 ≤ length out.old }
    ensures put { Put out.old 0 (loop_line (LoopAnswer.Refused number)) out.new result }
    ensures upper_bound { result ≤ 51 }
{
    let p = put_bytes(out, 0, b"refused ");
    let q = put_decimal(out, p, number);
    put_byte(out, q, b'\n')
}

// The line of an answer: as many bytes of out as the result says.
pub fn line(answer: LoopAnswer, out: &mut [u8; 51]) -> usize
    ensures prefix_len { IsPrefixLen result out.new }
    ensures out_after { take result out.new ≡ loop_line answer }
{
    match answer {
        LoopAnswer::Accepted => put_bytes(out, 0, b"accepted\n"),
        LoopAnswer::Rejected { place, reason } => put_rejected(out, place, reason),
        LoopAnswer::Refused { number } => put_refused(out, number),
    }
}
