// The machine: events and runs of events on a state and a lent memory.
#![tactic(auto)]

pub mod advance;
pub mod run;

ghost use Rattle.std.specs.Prelude.{◌≡◌};
ghost use Rattle.events.specs.declared.Event.TheVariants.{Step, Device, Yield};
ghost use Rattle.model.specs.Perform.{answer_of, memory_of};

use events::Event;
use machine::State;
use refusal::Refusal;

// How an event ends. ScStored and ScFailed are the two ends of an SC that does not trap, whatever its rd: 0 and 1. A trap's
// cause and value and a refusal's number stand in the variants and in no struct of their own: so the theorems of answers and sc_history name them.
#[derive(Clone, Copy)]
pub enum Outcome {
    Retired,
    ScStored,
    ScFailed,
    Trap { cause: u64, value: u64 },
    Refused { number: u64 },
}

// What is told of an event: its outcome, and the harts whose reservation it broke, bit k for hart k: bits, as the C interface and the lines have them.
#[derive(Clone, Copy)]
pub struct Reply {
    pub outcome: Outcome,
    pub broke: u64,
}

// The same with the state afterwards. Beside Reply and not around it: `perform` is public, and its equation names these three fields.
#[derive(Clone, Copy)]
pub struct Answer {
    pub outcome: Outcome,
    pub broke: u64,
    pub state: State,
}

// How a run ended: whether its events were performed or refused, how many were, and the state afterwards. No Result around the
// three: a refused run gives back the state as given, and its equation (result_of) names all three fields.
#[derive(Clone, Copy)]
pub struct Ran {
    pub verdict: Result<(), Refusal>,
    pub performed: usize,
    pub state: State,
}

// An event on a state and the memory at base: the answer with the state afterwards. A refusal and a trap change nothing.
pub fn perform(s: State, base: u64, mem: &mut [u8], e: Event) -> Answer
    ensures value { result ≡ answer_of base mem.old s e }
    ensures mem_after { mem.new ≡ memory_of base mem.old s e }
{
    if let Some(number) = machine::refusal(base, mem.len(), &s) {
        return Answer {
            outcome: Outcome::Refused { number },
            broke: 0,
            state: s,
        };
    }
    let mut state = s;
    let r = advance::advance(&mut state, base, mem, e);
    Answer {
        outcome: r.outcome,
        broke: r.broke,
        state,
    }
}

// A step of a hart: fetches the word at its pc and performs it.
pub fn step(s: State, base: u64, mem: &mut [u8], hart: usize) -> Answer
    ensures value { result ≡ answer_of base mem.old s (Step hart) }
    ensures mem_after { mem.new ≡ memory_of base mem.old s (Step hart) }
{
    perform(s, base, mem, Event::Step { hart })
}

// A device write of the size lowest bytes of value, the first byte lowest.
pub fn device_write(
    s: State,
    base: u64,
    mem: &mut [u8],
    addr: u64,
    size: usize,
    value: u64,
) -> Answer
    ensures value { result ≡ answer_of base mem.old s (Device addr size value) }
    ensures mem_after { mem.new ≡ memory_of base mem.old s (Device addr size value) }
{
    perform(
        s,
        base,
        mem,
        Event::Device {
            addr,
            size,
            data: value,
        },
    )
}

// A yield: drops a hart's reservation.
pub fn yield_hart(s: State, base: u64, mem: &mut [u8], hart: usize) -> Answer
    ensures value { result ≡ answer_of base mem.old s (Yield hart) }
    ensures mem_after { mem.new ≡ memory_of base mem.old s (Yield hart) }
{
    perform(s, base, mem, Event::Yield { hart })
}
