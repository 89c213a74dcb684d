// One row against the machine, on a state and a memory that refusals 1 and 2 do not refuse. Where a row stops a replay, they stay as they were.
ghost use Rattle.std.specs.Prelude.{◌≡◌, ◌<◌, Some};
ghost use Rattle.steplog.specs.Row.{reading_of};
ghost use Rattle.model.specs.Valid.{Valid};
ghost use Rattle.rows.specs.Row.{told_as, told_by, told_by_step, told_by_pc, told_of, after_row};
ghost use Rattle.rows.specs.Ready.{Ready};

use crate::Stop;
use dispatch::reg;
use events::Event;
use machine::State;
use model::Outcome;
use model::advance::advance;
use refusal::Refusal;
use steplog::Row;

// rd and value, in this order, against the model's.
#[tactic(auto, unfolding(crate::specs::Row::told_as))]
fn judge_shown(r: Row, rd: usize, value: u64) -> Result<(), Stop>
    ensures { result ≡ told_as r rd value }
{
    if r.rd != rd {
        return Err(Stop::Rd {
            board: r.rd as u64,
            model: rd as u64,
        });
    }
    if r.value != value {
        return Err(Stop::Value {
            board: r.value,
            model: value,
        });
    }
    Ok(())
}

// Trap, rd and value, in this order: the answer to a row's step and what rd holds after it, against the row.
#[tactic(auto, unfolding(crate::specs::Row::told_by))]
fn judge(o: Outcome, r: Row, rd: usize, value: u64) -> Result<(), Stop>
    ensures { result ≡ told_by o r rd value }
{
    match o {
        Outcome::Retired | Outcome::ScStored | Outcome::ScFailed => judge_shown(r, rd, value),
        Outcome::Trap { cause, value } => Err(Stop::Trap { cause, value }),
        Outcome::Refused { number } => Err(Stop::Refused(Refusal { number, place: 0 })),
    }
}

// A row with the pc and the word of its hart: the step is performed, and undone if it traps or the row differs in rd or value.
fn perform(s: &mut State, base: u64, mem: &mut [u8], r: Row) -> Result<(), Stop>
    requires { Ready base (record { state = s.old; mem = mem.old }) r }
    ensures value { result ≡ told_by_step base (record { state = s.old; mem = mem.old }) r }
    ensures after { record { state = s.new; mem = mem.new }
        ≡ after_row result base (record { state = s.old; mem = mem.old }) (Some r) }
{
    let h = r.hart;
    let saved = reach::save(s, h, r.word, base, mem);
    let rd = saved.rd;
    let reply = advance(s, base, mem, Event::Step { hart: h });
    let told = judge(reply.outcome, r, rd, reg(&s.x, h, rd));
    if told.is_err() {
        reach::put_back(s, mem, &saved);
    }
    told
}

// A row that is well formed: its pc, its word if that can be fetched, and the rest. A word that can't be fetched is a trap. It is fetched here as
// well as by the step (`model::advance`), since it is compared before the step is performed.
#[tactic(auto, unfolding(crate::specs::Row::after_row))]
fn against(s: &mut State, base: u64, mem: &mut [u8], r: Row) -> Result<(), Stop>
    requires { Valid base (record { state = s.old; mem = mem.old }) × (r.hart < s.old.count) }
    ensures value { result ≡ told_by_pc base (record { state = s.old; mem = mem.old }) r }
    ensures after { record { state = s.new; mem = mem.new }
        ≡ after_row result base (record { state = s.old; mem = mem.old }) (Some r) }
{
    let at = s.pc[r.hart];
    if r.pc != at {
        return Err(Stop::Pc {
            board: r.pc,
            model: at,
        });
    }
    if !reserve::inside(base, mem.len() as u64, at, 4) {
        return Err(Stop::Trap {
            cause: 1,
            value: at,
        });
    }
    let word = word::bytes::load_at(mem, (at - base) as usize, 4);
    if u64::from(r.word) != word {
        return Err(Stop::Word {
            board: u64::from(r.word),
            model: word,
        });
    }
    perform(s, base, mem, r)
}

// The 48 bytes of a row. Where it stops, nothing changes.
#[tactic(auto, unfolding(crate::specs::Row::told_of, crate::specs::Row::after_row))]
pub fn compare(s: &mut State, base: u64, mem: &mut [u8], part: &[u8]) -> Result<(), Stop>
    requires { Valid base (record { state = s.old; mem = mem.old }) }
    ensures value { result
        ≡ told_of base (record { state = s.old; mem = mem.old }) (reading_of s.old.count part.now) }
    ensures after { record { state = s.new; mem = mem.new }
        ≡ after_row result base (record { state = s.old; mem = mem.old }) (reading_of s.old.count part.now) }
{
    match steplog::read_row(part, s.count) {
        None => Err(Stop::Form),
        Some(r) => against(s, base, mem, r),
    }
}
