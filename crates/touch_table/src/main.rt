// Writes a line for each pair of ranges of standard input: the first byte and the number of bytes of either, and 1 if they touch, else 0. A
// pair is four numbers of 8 bytes each. tools/touch-table makes the pairs and, by another way, the lines that are expected.
#![tactic(auto)]

use input::read_full;
use std::io;
use word::bytes::load_at;

fn line(rt: &impl Print, b: u64, n: u64, c: u64, m: u64) -> io::Result<()> {
    let touches = u64::from(reserve::touch(b, n, c, m));
    println!(rt; "{b:016x} {n:016x} {c:016x} {m:016x} {touches}")
}

fn all(rt: &impl Print, pairs: &[u8]) -> io::Result<()> {
    for pair in pairs.chunks_exact(32) {
        line(
            rt,
            load_at(pair, 0, 8),
            load_at(pair, 8, 8),
            load_at(pair, 16, 8),
            load_at(pair, 24, 8),
        )?;
    }
    Ok(())
}

fn main(rt: HostRuntime) -> io::Result<()> {
    let mut space = [0u8; 65536];
    let n = read_full(&mut rt.stdin(), &mut space)?;
    all(&rt, &space[..n])
}
