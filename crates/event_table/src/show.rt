// The lines of a case: its outcome with the harts whose reservation it broke, and each thing that is another after the event.
ghost use Rattle.std.specs.Prelude.{◌≤◌};

use machine::State;
use model::Outcome;
use reserve::Reservation;
use settings::Settings;
use std::io;
use word::bytes::load_at;

pub fn outcome(rt: &impl Print, number: u64, o: Outcome, broke: u64) -> io::Result<()> {
    print!(rt; "{number}")?;
    match o {
        Outcome::Retired => print!(rt; " ok")?,
        Outcome::ScStored => print!(rt; " sc 0")?,
        Outcome::ScFailed => print!(rt; " sc 1")?,
        Outcome::Trap { cause, value } => print!(rt; " trap {cause} {value:016x}")?,
        Outcome::Refused { number: n } => print!(rt; " refused {n}")?,
    }
    if broke != 0 {
        print!(rt; " broke {broke:02x}")?; // a bit for each of 8 harts
    }
    print!(rt; "\n")
}

// A number in decimal, if it is another after the event.
fn number_line(rt: &impl Print, label: &str, before: u64, after: u64) -> io::Result<()> {
    if before != after {
        println!(rt; "{label} {after}")?;
    }
    Ok(())
}

fn settings(rt: &impl Print, before: Settings, after: Settings) -> io::Result<()> {
    number_line(rt, "size", before.size, after.size)?;
    number_line(rt, "version", before.version, after.version)?;
    number_line(rt, "kind", before.kind, after.kind)?;
    number_line(rt, "misaligned", before.misaligned, after.misaligned)
}

fn registers(rt: &impl Print, before: &[u64; 256], after: &[u64; 256]) -> io::Result<()> {
    for (i, (&old, &value)) in before.iter().zip(after).enumerate() {
        if old != value {
            println!(rt; "h{} x{} {value:016x}", i / 32, i % 32)?;
        }
    }
    Ok(())
}

fn pcs(rt: &impl Print, before: &[u64; 8], after: &[u64; 8]) -> io::Result<()> {
    for (h, (&old, &pc)) in before.iter().zip(after).enumerate() {
        if old != pc {
            println!(rt; "h{h} pc {pc:016x}")?;
        }
    }
    Ok(())
}

fn reservation(rt: &impl Print, h: usize, after: Option<Reservation>) -> io::Result<()> {
    match after {
        None => println!(rt; "h{h} free"),
        Some(Reservation { addr, width }) => println!(rt; "h{h} reserved {addr:016x} {width}"),
    }
}

fn reservations(
    rt: &impl Print,
    before: &[Option<Reservation>; 8],
    after: &[Option<Reservation>; 8],
) -> io::Result<()> {
    for (h, (&old, &new)) in before.iter().zip(after).enumerate() {
        if old != new {
            reservation(rt, h, new)?;
        }
    }
    Ok(())
}

pub fn state(rt: &impl Print, before: &State, after: &State) -> io::Result<()> {
    number_line(rt, "count", before.count as u64, after.count as u64)?;
    settings(rt, before.settings, after.settings)?;
    registers(rt, &before.x, &after.x)?;
    pcs(rt, &before.pc, &after.pc)?;
    reservations(rt, &before.res, &after.res)
}

// The first len bytes, eight at a time.
pub fn memory(
    rt: &impl Print,
    before: &[u8; 8192],
    after: &[u8; 8192],
    len: usize,
) -> io::Result<()>
    requires { len ≤ 8192 }
{
    for k in 0..len.div_ceil(8) {
        let at = k * 8;
        let value = load_at(after, at, 8);
        if load_at(before, at, 8) != value {
            println!(rt; "mem {at} {value:016x}")?;
        }
    }
    Ok(())
}
