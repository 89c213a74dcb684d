// A case's bytes turned into the program's whole output.
#![tactic(auto)]

ghost use Rattle.std.specs.Prelude.{◌≡◌, ◌+◌, ◌*◌, ◌-◌, ◌/◌, ◌≤◌, length, take, drop};
ghost use Rattle.io.specs.Counts.{IsPrefixLen};
ghost use Rattle.machine.specs.State.{refusal_of};
ghost use Rattle.casefile.specs.Case.{SoundCase};
ghost use Rattle.text.specs.Put.{Put};
ghost use Rattle.report.specs.Report.{refused_line, case_line, end_line, lines_of_case, text_of_case, report_on, report_of};
ghost use Rattle.settings.specs.Boards.{BoardRules};

use casefile::Case;
use machine::State;
use refusal::Refusal;
use settings::Board;
use text::{put_byte, put_bytes, put_decimal};

// The line of a refused file.
#[tactic(auto, using(text::proofs::PutLaws::then), unfolding(crate::specs::Report::refused_line))]
pub fn put_refused(out: &mut [u8], at: usize, r: Refusal) -> usize
    requires { at + 50 ≤ length out.old }
    ensures put { Put out.old at (refused_line r.number r.place) out.new result }
    ensures upper_bound { result ≤ at + 50 }
{
    let p = put_bytes(out, at, b"refused ");
    let q = put_decimal(out, p, r.number);
    let s = put_byte(out, q, b' ');
    let t = put_decimal(out, s, r.place as u64);
    put_byte(out, t, b'\n')
}

// The first line of a case.
#[tactic(auto, using(text::proofs::PutLaws::then), unfolding(crate::specs::Report::case_line))]
fn put_case(out: &mut [u8], at: usize, harts: u64, bytes: u64, events: u64) -> usize
    requires { at + 90 ≤ length out.old }
    ensures put { Put out.old at (case_line harts bytes events) out.new result }
    ensures upper_bound { result ≤ at + 90 }
{
    let p = put_bytes(out, at, b"case ");
    let q = put_decimal(out, p, harts);
    let s = put_bytes(out, q, b" harts ");
    let t = put_decimal(out, s, bytes);
    let u = put_bytes(out, t, b" bytes ");
    let v = put_decimal(out, u, events);
    put_bytes(out, v, b" events\n")
}

// The last line of a case.
#[tactic(auto, using(text::proofs::PutLaws::then), unfolding(crate::specs::Report::end_line))]
pub fn put_end(out: &mut [u8], at: usize, events: u64) -> usize
    requires { at + 25 ≤ length out.old }
    ensures put { Put out.old at (end_line events) out.new result }
    ensures upper_bound { result ≤ at + 25 }
{
    let p = put_bytes(out, at, b"end ");
    let q = put_decimal(out, p, events);
    put_byte(out, q, b'\n')
}

// All lines of a case whose events are body. Its memory is what stands in the buffer from `from` on, which the lines don't reach.
#[tactic(auto, using(lines::proofs::BehindLaws::front_length))]
fn put_lines_of_case(out: &mut [u8], from: usize, s: State, base: u64, body: &[u8]) -> usize
    requires body_bound { (115 + 95 * (length body.now / 24) ≤ from) × (from ≤ length out.old) }
    requires s_value { refusal_of base (length out.old - from) s ≡ 0 }
    ensures put { Put out.old 0 (lines_of_case base s (drop from out.old) body.now) out.new result }
    ensures upper_bound { result ≤ from }
{
    let count = s.count;
    let n = (body.len() / 24) as u64;
    let bytes = (out.len() - from) as u64;
    let p = put_case(&mut out[..from], 0, count as u64, bytes, n);
    let q = lines::put_lines(out, p, from, s, base, body);
    put_end(out, q, n)
}

// The report of the case that a file is. The memory is copied to the end of the buffer, since events write to it: an event has 24 bytes in the file and a
// line at most 95 in the buffer, which has four times the room, so no line reaches it.
fn put_bodies(out: &mut [u8], file: &[u8], c: Case) -> usize
    requires out_len { length out.old ≡ 262144 }
    requires sound_case { SoundCase file.now (Ok c) }
    ensures put { Put out.old 0 (text_of_case file.now (Ok c)) out.new result }
    ensures upper_bound { result ≤ 262144 }
{
    let from = out.len() - (c.events - c.memory);
    put_bytes(out, from, &file[c.memory..c.events]);
    put_lines_of_case(out, from, c.state, c.base, &file[c.events..])
}

// The report of any bytes on a board, put into a lent buffer.
#[tactic(auto, unfolding(crate::specs::Report::report_on))]
pub fn put_report_on(board: Board, out: &mut [u8], file: &[u8]) -> usize
    requires board_rules { BoardRules board }
    requires out_len { length out.old ≡ 262144 }
    ensures put { Put out.old 0 (report_on board file.now) out.new result }
    ensures upper_bound { result ≤ 262144 }
{
    match casefile::read_case_on(board, file) {
        Ok(c) => put_bodies(out, file, c),
        Err(r) => put_refused(out, 0, r),
    }
}

// The report of any bytes, put into a lent buffer, whose length is a clause: C lends a slice, and `capi` refuses a shorter one. `report` below has an
// array for callers from Rattle.
#[tactic(auto, using(settings::proofs::SettingsLaws::default_board_allowed))]
pub fn put_report(out: &mut [u8], file: &[u8]) -> usize
    requires { length out.old ≡ 262144 }
    ensures put { Put out.old 0 (report_of file.now) out.new result }
    ensures upper_bound { result ≤ 262144 }
{
    put_report_on(settings::default_board(), out, file)
}

// The text of any bytes on a board: as many bytes of out as the result says are all that the program writes for them.
pub fn report_on(board: Board, file: &[u8], out: &mut [u8; 262144]) -> usize
    requires { BoardRules board }
    ensures prefix_len { IsPrefixLen result out.new }
    ensures out_after { take result out.new ≡ report_on board file.now }
{
    put_report_on(board, out, file)
}

// The text of any bytes: as many bytes of out as the result says are all that the program writes for them where no board is given.
#[tactic(auto, using(settings::proofs::SettingsLaws::default_board_allowed))]
pub fn report(file: &[u8], out: &mut [u8; 262144]) -> usize
    ensures prefix_len { IsPrefixLen result out.new }
    ensures out_after { take result out.new ≡ report_of file.now }
{
    report_on(settings::default_board(), file, out)
}
