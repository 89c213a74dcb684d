// Reads and writes settings files, and writes a line for each. Standard input is cases: three numbers of 8 bytes each, the lowest byte first, and what belongs
// to them. 0, a length and 0: a file of that length to read. 1, a number of boards and a length: a write to a buffer of that length, of the sixteen boards that
// follow, three numbers each. tools/boards-table makes the cases and, from outside vectors and by another way, the lines that are expected.
#![tactic(auto)]

ghost use Rattle.std.specs.Prelude.{◌≡◌, ◌+◌, ◌≤◌, length};
ghost use Rattle.io.specs.Counts.{IsPrefixLen};
ghost use Rattle.word.specs.Bytes.{le};
ghost use Rattle.word.specs.Memory.{part};

use boards::SettingsFile;
use boards_layout::load_boards;
use input::read_full;
use refusal::Refusal;
use settings::Board;
use std::io;
use std::io::Read;

// What a buffer holds before a write: a byte that no file has, so that a byte that was written shows.
const FILLING: u8 = 0xa5;

// The number at a place.
fn number(bytes: &[u8], at: usize) -> u64
    requires { at + 8 ≤ length bytes.now }
    ensures { result ≡ le (part bytes.now at 8) }
{
    word::bytes::load_at(bytes, at, 8)
}

// How many bytes to lend: a length, or all there are.
fn lent(n: u64, bytes: &[u8]) -> usize
    ensures { IsPrefixLen result bytes.now }
{
    n.min(bytes.len() as u64) as usize
}

fn put_refused(rt: &impl Print, refusal: Refusal) -> io::Result<()> {
    print!(rt; " refused {} {}", refusal.number, refusal.place)
}

// The boards of a file that was read, and whatever stands behind them.
fn put_boards(rt: &impl Print, count: usize, boards: &[Board; 16]) -> io::Result<()> {
    for (k, board) in boards.iter().enumerate() {
        if (k < count) || (board.size != 0) || (board.version != 0) || (board.misaligned != 0) {
            print!(rt;
                " board {} {} {}",
                board.size, board.version, board.misaligned
            )?;
        }
    }
    Ok(())
}

fn put_read(rt: &impl Print, read: Result<SettingsFile, Refusal>) -> io::Result<()> {
    match read {
        Err(refusal) => put_refused(rt, refusal),
        Ok(file) => {
            print!(rt; " format {}", file.format)?;
            put_boards(rt, file.count, &file.boards)
        }
    }
}

// Where the fillings begin that go on to the end.
fn filled_from(out: &[u8]) -> usize
    ensures { IsPrefixLen result out.now }
{
    out.iter()
        .rposition(|b| *b != FILLING)
        .map_or(0, |last| last + 1)
}

fn put_hex(rt: &impl Print, bytes: &[u8]) -> io::Result<()> {
    for b in bytes {
        print!(rt; "{b:02x}")?;
    }
    Ok(())
}

// A buffer after a write: how many bytes of filling are left at its end, and what stands before them.
fn put_buffer(rt: &impl Print, out: &[u8]) -> io::Result<()> {
    let n = filled_from(out);
    print!(rt; " left {}", out.len() - n)?;
    if n != 0 {
        rt.write_all(b" ")?;
        put_hex(rt, &out[..n])?;
    }
    Ok(())
}

fn put_written(rt: &impl Print, written: Result<usize, Refusal>) -> io::Result<()> {
    match written {
        Err(refusal) => put_refused(rt, refusal),
        Ok(n) => print!(rt; " wrote {n}"),
    }
}

// Reads a file that is to fill the buffer from standard input.
fn read_to<R: Read>(rt: &impl Print, reader: &mut R, file: &mut [u8]) -> io::Result<()> {
    let n = read_full(reader, file)?;
    put_read(rt, boards::read_settings(&file[..n]))
}

// Reads a file of this length, by way of a lent buffer.
fn read_case<R: Read>(
    rt: &impl Print,
    reader: &mut R,
    space: &mut [u8],
    len: u64,
) -> io::Result<()> {
    let n = lent(len, space);
    read_to(rt, reader, &mut space[..n])
}

// Writes boards to a buffer.
fn write_to(rt: &impl Print, out: &mut [u8], count: u64, boards: [Board; 16]) -> io::Result<()> {
    out.fill(FILLING);
    put_written(rt, boards::write_settings(count as usize, boards, out))?;
    put_buffer(rt, out)
}

// Writes boards of standard input to so many bytes of a lent buffer.
fn write_case<R: Read>(
    rt: &impl Print,
    reader: &mut R,
    space: &mut [u8],
    count: u64,
    len: u64,
) -> io::Result<()> {
    let mut given: [u8; 384] = [0; 384];
    read_full(reader, &mut given)?;
    let n = lent(len, space);
    write_to(rt, &mut space[..n], count, load_boards(&given, 16))
}

fn case<R: Read>(rt: &impl Print, reader: &mut R, item: &[u8; 24], line: u64) -> io::Result<()> {
    let mut space = [0u8; 65536];
    print!(rt; "{line}")?;
    if number(item, 0) == 0 {
        read_case(rt, reader, &mut space, number(item, 8))?;
    } else {
        write_case(rt, reader, &mut space, number(item, 8), number(item, 16))?;
    }
    rt.write_all(b"\n")
}

fn main(rt: HostRuntime) -> io::Result<()> {
    let mut item: [u8; 24] = [0; 24];
    // Fewer than a million cases: what stands behind them isn't read.
    for line in 1..1000000 {
        if read_full(&mut rt.stdin(), &mut item)? != 24 {
            return Ok(());
        }
        case(&rt, &mut rt.stdin(), &item, line)?;
    }
    Ok(())
}
