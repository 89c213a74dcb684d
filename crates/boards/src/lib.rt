// Settings files of the boards, read and written: refusals 21 to 23. The file's own version is called its format, since `version` is that of A.
#![tactic(auto)]

ghost use Rattle.std.specs.Prelude.{◌≡◌, ◌+◌, ◌*◌, ◌≤◌, ◌<◌, false, true, cond, ◌++◌, eqb, length, get_or, MatchOption};
ghost use Rattle.word.specs.Bytes.{le, to_le};
ghost use Rattle.word.specs.Memory.{part, splice};
ghost use Rattle.word.specs.Each.{all_below};
ghost use Rattle.settings.specs.Boards.{board_ok};
ghost use Rattle.boards.specs.First.{first_not};
ghost use Rattle.boards.specs.File.{format_ok, body_size, start_of, board_in, entry_ok, table_ok, no_board, boards_in, read_of, Kept};
ghost use Rattle.boards.specs.Write.{blocks, entry_bytes, body_bytes, file_of, first_bad_board, written_of, left_of};

use refusal::Refusal;
use settings::Board;
use word::bytes::{field, load_at, store_at};

// What stands where there is no board.
pub const NO_BOARD: Board = Board {
    size: 0,
    version: 0,
    misaligned: 0,
};

// Refusal 21 of a table, and of a buffer or a number of boards that no table has.
const NO_TABLE: Refusal = Refusal {
    number: 21,
    place: 0,
};

// A file read. Boards stand in fixed memory: C gets sixteen of them, of which those from count on are zeros.
#[derive(Clone, Copy)]
pub struct SettingsFile {
    // A number and no enum, since C is told it.
    pub format: usize,
    pub count: usize,
    pub boards: [Board; 16],
}

// Whether it is a format that is read.
fn format_ok(format: usize) -> bool
    ensures { result ≡ format_ok format }
{
    matches!(format, 1 | 2)
}

// How many bytes a body has.
fn body_size(format: usize) -> usize
    ensures { result ≡ body_size format }
{
    if format == 1 { 3 } else { 4 }
}

// Where body k of count starts. The bounds keep the sum from overflowing.
fn start_of(format: usize, count: usize, k: usize) -> usize
    requires { (count ≤ 16) × (k ≤ 16) }
    ensures { result ≡ start_of format count k }
{
    8 + 8 * count + body_size(format) * k
}

// A file with the table of so many bodies in a format: it ends where the last of them does.
#[derive(Clone, Copy)]
struct Table<'a> {
    file: &'a [u8],
    format: usize,
    count: usize,
    ghost few: { count ≤ 16 },
    ghost ends: { length file.now ≡ start_of format count count },
}

// Whether the entry of body k has its start and its length.
#[tactic(auto, using(crate::proofs::FileLaws::start_table), unfolding(crate::specs::File::entry_ok))]
fn entry_ok(table: Table, k: usize) -> bool
    requires { k < table.count }
    ensures { result ≡ entry_ok table.entry.file.now table.entry.format table.entry.count k }
{
    let start = start_of(table.format, table.count, k);
    let size = body_size(table.format);
    (field(table.file, 8 + 8 * k) == start) && (field(table.file, 12 + 8 * k) == size)
}

// Whether all entries have.
fn entries_ok(table: Table) -> bool
    ensures { result ≡ all_below (entry_ok table.entry.file.now table.entry.format table.entry.count) table.entry.count }
{
    // Tried as (0..n).all(..): the proof didn't close, for want of a law of it over a range.
    for k in 0..table.count {
        if !entry_ok(table, k) {
            return false;
        }
    }
    true
}

// The table of so many bodies; none where the second 21 names the number of boards, the table or the end. The length is compared before an entry is read, so
// that each entry lies in the file.
fn table_in<'a>(file: &'a [u8], format: usize, count: usize) -> Option<Table<'a>>
    ensures { MatchOption result (table_ok file.now format count ≡ false)
        (λ t. (table_ok file.now format count ≡ true) × (t.file.now ≡ file.now) × (t.format ≡ format) × (t.count ≡ count)) }
{
    if (count < 1) || (16 < count) || (file.len() != start_of(format, count, count)) {
        return None;
    }
    let table = Table {
        file,
        format,
        count,
    };
    if entries_ok(table) { Some(table) } else { None }
}

// What the body at start says of a misaligned LR, SC or AMO: one of format 1 has no byte for it and means causes 4 and 6.
fn misaligned_at(file: &[u8], format: usize, start: usize) -> u64
    requires { start + body_size format ≤ length file.now }
    ensures { result ≡ cond (eqb format 1) 0 (le (part file.now (start + 3) 1)) }
{
    if format == 1 {
        return 0;
    }
    load_at(file, start + 3, 1)
}

// The board that body k is.
fn board_in(table: Table, k: usize) -> Board
    requires { k < table.count }
    ensures { result ≡ board_in table.entry.file.now table.entry.format table.entry.count k }
{
    let start = start_of(table.format, table.count, k);
    Board {
        size: load_at(table.file, start, 2),
        version: load_at(table.file, start + 2, 1),
        misaligned: misaligned_at(table.file, table.format, start),
    }
}

// The first body whose content is bad, if one is.
fn first_bad(table: Table) -> Option<usize>
    ensures { result ≡ first_not (λ k. board_ok (board_in table.entry.file.now table.entry.format table.entry.count k)) table.entry.count }
{
    (0..table.count).find(
        |&k|
            requires { k < table.count }
        { !settings::board_ok(board_in(table, k)) },
    )
}

// The boards of the bodies. By number, since no slice is gone through.
fn boards_in(table: Table) -> [Board; 16]
    ensures { result ≡ boards_in table.entry.file.now table.entry.format table.entry.count }
{
    let mut boards = [NO_BOARD; 16];
    for k in 0..table.count {
        boards[k] = board_in(table, k);
    }
    boards
}

// The boards of a settings file, or why it has none.
pub fn read_settings(file: &[u8]) -> Result<SettingsFile, Refusal>
    ensures value { result ≡ read_of file.now }
    ensures kept { Kept result }
{
    if file.len() < 8 {
        return Err(NO_TABLE);
    }
    let format = field(file, 0);
    if !format_ok(format) {
        return Err(Refusal {
            number: 22,
            place: 0,
        });
    }
    let count = field(file, 4);
    let Some(table) = table_in(file, format, count) else {
        return Err(NO_TABLE);
    };
    if let Some(bad) = first_bad(table) {
        let start = start_of(table.format, table.count, bad);
        return Err(Refusal {
            number: 23,
            place: start,
        });
    }
    Ok(SettingsFile {
        format: table.format,
        count: table.count,
        boards: boards_in(table),
    })
}

// The first board that no settings file may have, if there is one.
fn first_bad_board(boards: &[Board]) -> Option<usize>
    ensures { result ≡ first_bad_board (length boards.now) boards.now }
{
    for (k, &board) in boards.iter().enumerate() {
        if !settings::board_ok(board) {
            return Some(k);
        }
    }
    None
}

// Writes an entry of the table: where its body starts, and that it has four bytes.
fn put_entry(out: &mut [u8], place: usize, start: usize)
    requires { place + 8 ≤ length out.old }
    ensures { out.new ≡ splice out.old place (to_le 4 start ++ to_le 4 4) }
{
    store_at(out, place, 4, start as u64);
    store_at(out, place + 4, 4, 4);
}

// Writes the table. By number, since no slice is gone through.
fn put_entries(out: &mut [u8], count: usize)
    requires { (count ≤ 16) × (8 + 12 * count ≤ length out.old) }
    ensures { out.new ≡ splice out.old 8 (blocks (entry_bytes count) count) }
{
    for k in 0..count {
        put_entry(out, 8 + 8 * k, start_of(2, count, k));
    }
}

// Writes a body.
fn put_body(out: &mut [u8], place: usize, board: Board)
    requires { place + 4 ≤ length out.old }
    ensures { out.new ≡ splice out.old place (body_bytes board) }
{
    store_at(out, place, 2, board.size);
    store_at(out, place + 2, 1, board.version);
    store_at(out, place + 3, 1, board.misaligned);
}

// Writes the bodies, which start where the table ends.
fn put_bodies(out: &mut [u8], boards: &[Board])
    requires { (length boards.now ≤ 16) × (8 + 12 * length boards.now ≤ length out.old) }
    ensures { out.new ≡ splice out.old (8 + 8 * length boards.now) (blocks (λ k. body_bytes (get_or boards.now k no_board)) (length boards.now)) }
{
    let first = 8 + 8 * boards.len();
    for (k, &board) in boards.iter().enumerate() {
        put_body(out, first + 4 * k, board);
    }
}

// Writes the file of these boards.
fn put_file(out: &mut [u8], boards: &[Board])
    requires { (length boards.now ≤ 16) × (8 + 12 * length boards.now ≤ length out.old) }
    ensures { out.new ≡ splice out.old 0 (file_of (length boards.now) boards.now) }
{
    let count = boards.len();
    store_at(out, 0, 4, 2);
    store_at(out, 4, 4, count as u64);
    put_entries(out, count);
    put_bodies(out, boards);
}

// Writes the settings file of the first count boards to the front of out, and answers how many bytes it has, or says why there is none, with nothing written.
// The numbers of a board are judged before they are cut to the bytes of its body. A count above sixteen has to be refused, so that it stands beside the boards.
pub fn write_settings(count: usize, boards: [Board; 16], out: &mut [u8]) -> Result<usize, Refusal>
    ensures value { result ≡ written_of count boards (length out.old) }
    ensures out_after { out.new ≡ left_of count boards out.old }
{
    if (count < 1) || (16 < count) || (out.len() < 8 + 12 * count) {
        return Err(NO_TABLE);
    }
    let written = &boards[..count];
    if let Some(bad) = first_bad_board(written) {
        let place = start_of(2, count, bad);
        return Err(Refusal { number: 23, place });
    }
    put_file(out, written);
    Ok(8 + 12 * count)
}
