// The text of a replay's answer, put into a lent buffer. all is the number of rows of the log, k that of the rows before the stop.
ghost use Rattle.std.specs.Prelude.{◌++◌, ◌+◌, ◌≤◌, ◌<◌, length};
ghost use Rattle.text.specs.Ascii.{ascii};
ghost use Rattle.text.specs.Number.{decimal_of, digits_from};
ghost use Rattle.text.specs.Put.{Put};
ghost use Rattle.report.specs.Report.{end_line};
ghost use Rattle.case_replay.specs.Answer.{log_line, three_lines, row_told, answer_text};

use lines::put_trap;
use report::{put_end, put_refused};
use rows::Stop;
use text::{put_byte, put_bytes, put_decimal, put_digits};

// The first line.
#[tactic(auto, using(text::proofs::PutLaws::then), unfolding(crate::specs::Answer::log_line))]
fn put_log(out: &mut [u8], at: usize, all: u64) -> usize
    requires { at + 30 ≤ length out.old }
    ensures put { Put out.old at (log_line all) out.new result }
    ensures upper_bound { result ≤ at + 30 }
{
    let p = put_bytes(out, at, b"log ");
    let q = put_decimal(out, p, all);
    put_bytes(out, q, b" rows\n")
}

// The end of the second line, and the third.
#[tactic(auto, using(text::proofs::PutLaws::then))]
fn put_last(out: &mut [u8], at: usize, k: u64) -> usize
    requires { at + 26 ≤ length out.old }
    ensures put { Put out.old at (ascii "\n" ++ end_line k) out.new result }
    ensures upper_bound { result ≤ at + 26 }
{
    let p = put_byte(out, at, b'\n');
    put_end(out, p, k)
}

// All rows agreed.
#[tactic(auto, using(text::proofs::PutLaws::then), unfolding(crate::specs::Answer::answer_text))]
fn put_agreed(out: &mut [u8], at: usize, all: u64, k: u64) -> usize
    requires { at + 128 ≤ length out.old }
    ensures put { Put out.old at (answer_text all k Stop.Agreed) out.new result }
    ensures upper_bound { result ≤ at + 128 }
{
    let p = put_log(out, at, all);
    let q = put_bytes(out, p, b"agreed ");
    let s = put_decimal(out, q, k);
    put_last(out, s, k)
}

// The first line, and which row the second tells of.
#[tactic(auto, using(text::proofs::PutLaws::then))]
fn put_row_number(out: &mut [u8], at: usize, all: u64, k: u64) -> usize
    requires { at + 54 ≤ length out.old }
    ensures put { Put out.old at (log_line all ++ (ascii "row " ++ decimal_of k)) out.new result }
    ensures upper_bound { result ≤ at + 54 }
{
    let p = put_log(out, at, all);
    let q = put_bytes(out, p, b"row ");
    put_decimal(out, q, k)
}

// A row that is badly formed.
#[tactic(auto, using(crate::proofs::AnswerLaws::told), unfolding(crate::specs::Answer::answer_text))]
fn put_form(out: &mut [u8], at: usize, all: u64, k: u64) -> usize
    requires { at + 128 ≤ length out.old }
    ensures put { Put out.old at (answer_text all k Stop.Form) out.new result }
    ensures upper_bound { result ≤ at + 128 }
{
    let p = put_row_number(out, at, all, k);
    let q = put_bytes(out, p, b" form");
    put_last(out, q, k)
}

// A row whose step traps.
#[tactic(auto, using(crate::proofs::AnswerLaws::told), unfolding(crate::specs::Answer::answer_text))]
fn put_trapped(out: &mut [u8], at: usize, all: u64, k: u64, cause: u64, value: u64) -> usize
    requires { at + 128 ≤ length out.old }
    ensures put { Put out.old at (answer_text all k (Stop.Trap cause value)) out.new result }
    ensures upper_bound { result ≤ at + 128 }
{
    let p = put_row_number(out, at, all, k);
    let q = put_trap(out, p, cause, value);
    put_last(out, q, k)
}

// The board's value and the model's, in so many digits of a base.
#[tactic(auto, using(text::proofs::PutLaws::then))]
fn put_values<const BASE: u64>(
    out: &mut [u8],
    at: usize,
    digits: usize,
    board: u64,
    model: u64,
) -> usize
    requires { (at + 33 ≤ length out.old) × (0 < BASE) × (BASE ≤ 16) × (digits ≤ 16) }
    ensures put { Put out.old at (digits_from BASE digits board ++ (ascii " " ++ digits_from BASE digits model)) out.new result }
    ensures upper_bound { result ≤ at + 33 }
{
    let p = put_digits::<BASE>(out, at, board, digits);
    let q = put_byte(out, p, b' ');
    put_digits::<BASE>(out, q, model, digits)
}

// A row that differs in a field.
#[tactic(auto, using(crate::proofs::AnswerLaws::told, text::proofs::PutLaws::then))]
fn put_differs<const BASE: u64>(
    out: &mut [u8],
    at: usize,
    all: u64,
    k: u64,
    field: &[u8],
    digits: usize,
    board: u64,
    model: u64,
) -> usize
    requires at_in_bounds { (at + 128 ≤ length out.old) × (length field.now ≤ 7) }
    requires base_nonzero { (0 < BASE) × (BASE ≤ 16) × (digits ≤ 16) }
    ensures put { Put out.old at
        (three_lines all k (row_told k (field.now ++ (digits_from BASE digits board ++ (ascii " " ++ digits_from BASE digits model)))))
        out.new result }
    ensures upper_bound { result ≤ at + 128 }
{
    let p = put_row_number(out, at, all, k);
    let q = put_bytes(out, p, field);
    let s = put_values::<BASE>(out, q, digits, board, model);
    put_last(out, s, k)
}

// The whole answer. at stands in each of these functions, as in `text`.
#[tactic(auto, unfolding(crate::specs::Answer::answer_text))]
pub fn put_answer(out: &mut [u8], at: usize, all: u64, k: u64, stop: Stop) -> usize
    requires { at + 128 ≤ length out.old }
    ensures put { Put out.old at (answer_text all k stop) out.new result }
    ensures upper_bound { result ≤ at + 128 }
{
    match stop {
        Stop::Agreed => put_agreed(out, at, all, k),
        Stop::Form => put_form(out, at, all, k),
        Stop::Pc { board, model } => put_differs::<16>(out, at, all, k, b" pc ", 16, board, model),
        Stop::Word { board, model } => put_differs::<16>(
            out, at, all, k, b" word ", 8, board, model,
        ),
        Stop::Trap { cause, value } => put_trapped(out, at, all, k, cause, value),
        Stop::Rd { board, model } => put_differs::<10>(out, at, all, k, b" rd ", 2, board, model),
        Stop::Value { board, model } => {
            put_differs::<16>(out, at, all, k, b" value ", 16, board, model)
        }
        Stop::Refused(r) => put_refused(out, at, r),
    }
}
