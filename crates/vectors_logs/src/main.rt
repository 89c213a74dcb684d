// Each case of data/ with its log, 000 to 192, in order: a line with its number, the text of the replay, and, unless it is refused, what it
// leaves: pc, registers that aren't zero and the reservation of each used hart, and the 8-byte words of memory that aren't zero.
#![tactic(auto)]

ghost use Rattle.std.specs.Prelude.{◌<◌, ◌≤◌, OnErr, length};
ghost use Rattle.std.specs.Io.{ReadsAtMost};

use arguments::{open_file, tell_failure};
use input::read_full;
use machine::State;
use reserve::Reservation;
use rows::Stop;
use std::io;
use text::{put_bytes, put_digits};
use word::bytes::load_le;

// The bytes of a file of case i, whose name is the case's number and what kind of file it is. One that can't be opened is told of, and has none.
fn read_file(rt: &HostRuntime, i: u64, kind: &[u8], buf: &mut [u8]) -> io::Result<usize>
    requires { length kind.now ≤ 5 }
    ensures bound { ReadsAtMost result buf.new }
    ensures err { OnErr result (0 < length buf.new) }
{
    let mut space = [0u8; 8];
    let n = put_digits::<10>(&mut space, 0, i, 3);
    let end = put_bytes(&mut space, n, kind);
    let name = &space[..end];
    match open_file(rt, name) {
        Ok(mut file) => read_full(&mut file, buf),
        Err(e) => {
            tell_failure(rt, &mut rt.stderr(), name, e);
            Ok(0)
        }
    }
}

fn print_registers(rt: &impl Print, h: usize, x: &[u64]) -> io::Result<()> {
    for (r, &v) in x.iter().enumerate() {
        if v != 0 {
            println!(rt; "h{h} x{r} {v:016x}")?;
        }
    }
    Ok(())
}

fn print_hart(rt: &impl Print, h: usize, s: &State) -> io::Result<()>
    requires { h < 8 }
{
    let pc = s.pc[h];
    println!(rt; "h{h} pc {pc:016x}")?;
    print_registers(rt, h, &s.x[32 * h..32 * h + 32])?;
    if let Some(Reservation { addr, width }) = s.res[h] {
        println!(rt; "h{h} reserved {addr:016x} {width}")?;
    }
    Ok(())
}

fn print_harts(rt: &impl Print, s: &State) -> io::Result<()> {
    for h in 0..s.count.min(8) {
        print_hart(rt, h, s)?;
    }
    Ok(())
}

fn print_memory(rt: &impl Print, mem: &[u8]) -> io::Result<()> {
    for (i, word) in mem.chunks_exact(8).enumerate() {
        let v = load_le(word);
        if v != 0 {
            let at = 8 * i;
            println!(rt; "m {at} {v:016x}")?;
        }
    }
    Ok(())
}

// What a replay leaves: the harts, and the memory that the file holds after it.
fn print_left(rt: &impl Print, s: &State, file: &[u8]) -> io::Result<()> {
    print_harts(rt, s)?;
    match casefile::read_case(file) {
        Ok(c) => print_memory(rt, &file[c.memory..c.events]),
        Err(_) => Ok(()),
    }
}

fn print_replay(rt: &impl Print, file: &mut [u8], log: &[u8]) -> io::Result<()> {
    let r = case_replay::replay_case(file, log);
    let mut out = [0u8; 128];
    let n = case_replay::answer_text((log.len() / 48) as u64, r.rows as u64, r.stop, &mut out);
    rt.write_all(&out[..n])?;
    if matches!(r.stop, Stop::Refused(_)) {
        return Ok(());
    }
    print_left(rt, &r.state, file)
}

fn run_case(rt: &HostRuntime, i: u64) -> io::Result<()> {
    println!(rt; "{i:03}")?;
    let mut file = [0u8; 65537];
    let n = read_file(rt, i, b".case", &mut file)?;
    let mut log = [0u8; 131072];
    let m = read_file(rt, i, b".log", &mut log)?;
    print_replay(rt, &mut file[..n], &log[..m])
}

fn main(rt: HostRuntime) -> io::Result<()> {
    for i in 0..193 {
        run_case(&rt, i)?;
    }
    Ok(())
}
