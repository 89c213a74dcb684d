// Rows of the boards' logs: read, and written.
#![tactic(auto)]

pub mod digits;

ghost use Rattle.std.specs.Prelude.{◌≡◌, [], ◌∷◌, ◌++◌, ◌+◌, ◌≤◌, ◌<◌, length};
ghost use Rattle.text.specs.Put.{Put};
ghost use Rattle.text.specs.Number.{digits_from};
ghost use Rattle.steplog.specs.Row.{row_of, between_ok, reading_of};

use digits::read_number;
use text::{put_byte, put_digits};

// A row: hart, pc, word, rd, and the value in rd afterwards.
#[derive(Clone, Copy)]
pub struct Row {
    pub hart: usize,
    pub pc: u64,
    pub word: u32,
    pub rd: usize,
    pub value: u64,
}

// Whether spaces and the line feed stand where they belong.
#[tactic(auto, unfolding(crate::specs::Row::between_ok))]
fn between(row: &[u8]) -> bool
    requires { length row.now ≡ 48 }
    ensures { result ≡ between_ok row.now }
{
    row[1] == b' ' && row[18] == b' ' && row[27] == b' ' && row[30] == b' ' && row[47] == b'\n'
}

// The row that a part of a log is; none where it is badly formed.
pub fn read_row(part: &[u8], count: usize) -> Option<Row>
    ensures { result ≡ reading_of count part.now }
{
    if part.len() != 48 {
        return None;
    }
    if !between(part) {
        return None;
    }
    let hart = read_number(&part[0..1], 10)? as usize;
    let pc = read_number(&part[2..18], 16)?;
    let word = read_number(&part[19..27], 16)? as u32;
    let rd = read_number(&part[28..30], 10)? as usize;
    let value = read_number(&part[31..47], 16)?;
    if count <= hart {
        return None;
    }
    Some(Row {
        hart,
        pc,
        word,
        rd,
        value,
    })
}

// A number in so many digits, and the byte after it.
fn put_field<const BASE: u64>(out: &mut [u8], at: usize, n: u64, k: usize, after: u8) -> usize
    requires { (at + (k + 1) ≤ length out.old) × (0 < BASE) × (BASE ≤ 16) }
    ensures put { Put out.old at (digits_from BASE k n ++ (after ∷ [])) out.new result }
    ensures value { result ≡ at + (k + 1) }
{
    let past = put_digits::<BASE>(out, at, n, k);
    put_byte(out, past, after)
}

// The text of a row.
pub fn put_row(out: &mut [u8], at: usize, r: Row) -> usize
    requires at_in_bounds { at + 48 ≤ length out.old }
    requires hart_bound { (r.hart < 10) × (r.rd < 100) }
    ensures put { Put out.old at (row_of r) out.new result }
    ensures value { result ≡ at + 48 }
{
    let pc = put_field::<10>(out, at, r.hart as u64, 1, b' ');
    let word = put_field::<16>(out, pc, r.pc, 16, b' ');
    let rd = put_field::<16>(out, word, u64::from(r.word), 8, b' ');
    let value = put_field::<10>(out, rd, r.rd as u64, 2, b' ');
    put_field::<16>(out, value, r.value, 16, b'\n')
}
