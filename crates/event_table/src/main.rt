// Performs single events, each on a state of its own, and writes the outcome of each and what it changed. Standard input is items of 24 bytes
// that build a state and name an event; tools/event-table says their layout, makes them and, by another model, the text that is expected.
#![tactic(auto)]

ghost use Rattle.std.specs.Prelude.{◌≡◌, ◌+◌, ◌%◌, ◌^◌, ◌≤◌, min, length, take, if◌then◌else◌, nat_lt, IfOk, OnErr};
ghost use Rattle.std.specs.Io.{ReadsAtMost};
ghost use Rattle.model.specs.Perform.{answer_of};
ghost use Rattle.event_table.specs.Build.{first_of, item_kind, patch_of, event_in};

use build::Case;
use events::Event;
use input::read_full;
use machine::State;
use model::Answer;
use std::io;
use std::io::Read;

mod build;
mod show;

// The answer to an event, with the first len bytes of mem lent.
fn answer(s: State, base: u64, mem: &mut [u8], len: usize, e: Event) -> Answer
    ensures { result ≡ answer_of base (take (min len (length mem.old)) mem.old) s e }
{
    let n = len.min(mem.len());
    model::perform(s, base, &mut mem[..n], e)
}

// Performs the event of a case, and writes the case's lines.
fn perform(rt: &impl Print, c: &Case, mem: &mut [u8; 8192], e: Event) -> io::Result<()> {
    let old = *mem;
    let a = answer(c.state, c.base, mem, c.len, e);
    show::outcome(rt, c.number, a.outcome, a.broke)?;
    show::state(rt, &c.state, &a.state)?;
    show::memory(rt, &old, mem, c.len.min(8192))
}

// The event that an item is, where its kind is 7, 8 or 9.
#[tactic(auto, unfolding(crate::specs::Build::event_in))]
fn event(item: &[u8; 24]) -> Event
    ensures { result ≡ event_in item.now }
{
    match item[0] {
        7 => Event::Step {
            hart: build::a(item) as usize,
        },
        8 => Event::Device {
            addr: build::a(item),
            size: build::n(item) as usize,
            data: build::b(item),
        },
        _ => Event::Yield {
            hart: build::a(item) as usize,
        },
    }
}

// A case after one more item: an event ends it, and the next case begins. Only an event is written of, which may fail.
fn take(rt: &impl Print, c: &mut Case, mem: &mut [u8; 8192], item: &[u8; 24]) -> io::Result<()>
    ensures value { IfOk result (λ _. c.new ≡ (if nat_lt (item_kind item.now) 7 then patch_of c.old item.now else first_of ((c.old.number + 1) % 2 ^ 64))) }
    ensures err { OnErr result (7 ≤ item_kind item.now) }
{
    if item[0] < 7 {
        build::patch(c, mem, item);
        return Ok(());
    }
    perform(rt, c, mem, event(item))?;
    build::fill(mem);
    *c = build::first(c.number.wrapping_add(1));
    Ok(())
}

// Reads the next item: how many of its bytes there were.
fn read<R: Read>(reader: &mut R, item: &mut [u8; 24]) -> io::Result<usize>
    ensures { ReadsAtMost result item.new }
{
    read_full(reader, item)
}

fn main(rt: HostRuntime) -> io::Result<()> {
    let mut mem: [u8; 8192] = [0; 8192];
    build::fill(&mut mem);
    let mut item: [u8; 24] = [0; 24];
    let mut c = build::first(0);
    // A table has a million items at most: what stands behind them isn't read.
    for _ in 0..1000000 {
        if read(&mut rt.stdin(), &mut item)? != 24 {
            break;
        }
        take(&rt, &mut c, &mut mem, &item)?;
    }
    Ok(())
}
