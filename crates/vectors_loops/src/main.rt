// Writes the line of each block on standard input. A block is a byte with the version of A, one with the kind of core, one with the number of its words,
// then the words, 4 bytes each and the lowest first.
// The lines that are expected were made by an independent model of document 01.
#![tactic(auto)]

use input::read_full;
use settings::Settings;
use std::io;

fn write_line(rt: &impl Print, settings: Settings, words: &[u8]) -> io::Result<()> {
    let mut out = [0u8; 51];
    let r = loop_line::line(retry::check_bytes(settings, words), &mut out);
    rt.write_all(&out[..r])
}

// A block that the input cuts short ends it. A while: how long a block says it is decides where the next begins.
fn all(rt: &impl Print, blocks: &[u8]) -> io::Result<()> {
    let mut left = blocks;
    while let [version, kind, count, behind @ ..] = left {
        let Some((words, next)) = behind.split_at_checked(4 * usize::from(*count)) else {
            break;
        };
        let settings = settings::of_kind(u64::from(*version), u64::from(*kind));
        write_line(rt, settings, words)?;
        left = next;
    }
    Ok(())
}

fn main(rt: HostRuntime) -> io::Result<()> {
    let mut space = [0u8; 65536];
    let n = read_full(&mut rt.stdin(), &mut space)?;
    all(&rt, &space[..n])
}
