// loopcheck [VERSION [KIND]]: says of the words on standard input, 4 bytes each and the lowest first, whether they are a retry loop that is accepted, under
// A 2.1 or the VERSION that is given, 20 for 2.0 and 21 for 2.1, read as a 64-bit core reads them or as the KIND does that is given, 0 for 64 bits and 1 for
// 32: a line `accepted`, `rejected PLACE REASON` or `refused NUMBER`. What can't be read or written is told on standard error.
#![tactic(auto)]

ghost use Rattle.std.specs.Prelude.{IfOk, IfSome, ◌≤◌, length};

use arguments::{argument, is_given, tell};
use input::read_full;
use settings::Settings;
use std::io;

// What the length of the whole input leaves when it is divided by 4. The first n bytes have been read. The rest is read and dropped: so long a block is
// refused, whatever its words. The bound on the turns is beyond any input.
fn read_rest(rt: &HostRuntime, n: usize) -> io::Result<usize> {
    let mut space = [0u8; 65536];
    let mut left = n % 4;
    for _ in 0..1000000000000u64 {
        let more = read_full(&mut rt.stdin(), &mut space)?;
        if more == 0 {
            break;
        }
        left = (left + more % 4) % 4;
    }
    Ok(left)
}

// How many bytes the block has that is put at the start of buf: the whole input, or as much as there is room for. No block where the length of the whole
// input is not a multiple of 4.
fn read_block(rt: &HostRuntime, buf: &mut [u8]) -> io::Result<Option<usize>>
    ensures { IfOk result (λ block. IfSome block (λ n. n ≤ length buf.new)) }
{
    let n = read_full(&mut rt.stdin(), buf)?;
    let left = read_rest(rt, n)?;
    Ok(if left == 0 { Some(n) } else { None })
}

fn write_line(rt: &HostRuntime, line: &[u8]) {
    if let Err(e) = rt.write_all(line) {
        tell(rt, &mut rt.stderr(), b"loopcheck", b"standard output", e);
    }
}

fn check(rt: &HostRuntime, settings: Settings) {
    let mut space = [0u8; 65536];
    match read_block(rt, &mut space) {
        Ok(Some(n)) => {
            let mut out = [0u8; 51];
            let r = loop_line::line(retry::check_bytes(settings, &space[..n]), &mut out);
            write_line(rt, &out[..r]);
        }
        Ok(None) => write_line(rt, b"bad input: length is not a multiple of 4\n"),
        Err(e) => tell(rt, &mut rt.stderr(), b"loopcheck", b"standard input", e),
    }
}

fn main(rt: HostRuntime) {
    match (argument(&rt, 1, 21), argument(&rt, 2, 0)) {
        (Some(version), Some(kind)) if !is_given(&rt, 3) => {
            check(&rt, settings::of_kind(version, kind));
        }
        _ => {
            let _ = eprintln!(rt; "use: loopcheck [VERSION [KIND]] < WORDS");
        }
    }
}
