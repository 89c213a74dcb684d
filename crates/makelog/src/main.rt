// A case on standard input, the log that the model makes of its events on standard output: a row for each step, up to the first event that is
// no step or whose step traps, which is told on standard error.
#![tactic(auto)]

use events::Event;
use input::read_full;
use log_maker::NoRow;
use machine::State;
use std::io;
use std::io::Error;
use steplog::Row;

// Why a log ends before its case does.
#[derive(Drop)]
enum End {
    NoStep,
    NoRow(NoRow),
    // A hart or a register that a row has not the digits for, one and two. No case has one, so nothing is told of it.
    NoDigits,
    NotWritten(Error),
}

impl From<NoRow> for End {
    fn from(why: NoRow) -> End {
        End::NoRow(why)
    }
}

impl From<Error> for End {
    fn from(why: Error) -> End {
        End::NotWritten(why)
    }
}

// What the system says went wrong.
fn tell(rt: &HostRuntime, what: &[u8], why: Error) {
    arguments::tell(rt, &mut rt.stderr(), b"makelog", what, why);
}

// Why the log ends at event i. No event of a case that is read is refused.
fn tell_end(rt: &HostRuntime, i: usize, end: End) -> io::Result<()> {
    match end {
        End::NoStep => eprintln!(rt; "makelog: event {i} is no step"),
        End::NoRow(NoRow::Trap { cause, value }) => {
            eprintln!(rt; "makelog: event {i} traps: cause {cause}, value {value:016x}")
        }
        End::NoRow(NoRow::Refused { number }) => {
            eprintln!(rt; "makelog: event {i} is refused: {number}")
        }
        End::NoDigits => Ok(()),
        End::NotWritten(e) => {
            tell(rt, b"standard output", e);
            Ok(())
        }
    }
}

fn write_row(rt: &impl Print, r: Row) -> Result<(), End> {
    if r.hart >= 10 || r.rd >= 100 {
        return Err(End::NoDigits);
    }
    let mut out = [0u8; 48];
    steplog::put_row(&mut out, 0, r);
    rt.write_all(&out)?;
    Ok(())
}

fn log_event(
    rt: &impl Print,
    s: &mut State,
    base: u64,
    mem: &mut [u8],
    e: Event,
) -> Result<(), End> {
    let Event::Step { hart } = e else {
        return Err(End::NoStep);
    };
    let step = log_maker::make_row(*s, base, mem, hart);
    *s = step.state;
    write_row(rt, step.made?)
}

// All events of a case, up to the one at which the log ends.
fn log_events(rt: &HostRuntime, s: State, base: u64, mem: &mut [u8], events: &[u8]) {
    let mut state = s;
    for (i, event) in events.chunks_exact(24).enumerate() {
        let e = events::read_event(event);
        if let Err(end) = log_event(rt, &mut state, base, mem, e) {
            let _ = tell_end(rt, i, end);
            return;
        }
    }
}

fn log_case(rt: &HostRuntime, file: &mut [u8]) {
    match casefile::read_case(file) {
        Ok(c) => {
            let (before, events) = file.split_at_mut(c.events);
            log_events(rt, c.state, c.base, &mut before[c.memory..], events);
        }
        Err(r) => {
            let _ = eprintln!(rt; "refused {} {}", r.number, r.place);
        }
    }
}

fn main(rt: HostRuntime) {
    // one byte more than a case may have, so that a longer file is seen to be longer
    let mut space = [0u8; 65537];
    match read_full(&mut rt.stdin(), &mut space) {
        Ok(n) => log_case(&rt, &mut space[..n]),
        Err(e) => tell(&rt, b"standard input", e),
    }
}
