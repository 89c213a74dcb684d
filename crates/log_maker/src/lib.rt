// The rows that the model makes: a step performed, and the row that a board logs of it.
#![tactic(auto)]

ghost use Rattle.std.specs.Prelude.{◌≡◌, true, ◌%◌, length, get_or};
ghost use Rattle.settings.specs.Settings.{xlen_of};
ghost use Rattle.reserve.specs.Range.{inside_of};
ghost use Rattle.isa.specs.Narrow.{decode_at};
ghost use Rattle.effect.specs.Memory.{value_at};
ghost use Rattle.effect.specs.Execute.{reg_at};
ghost use Rattle.events.specs.declared.Event.TheVariants.{Step};
ghost use Rattle.model.specs.Perform.{next_of};
ghost use Rattle.reach.specs.Rd.{shown_rd};
ghost use Rattle.log_maker.specs.Made.{made_by, made_of};

use isa::Instr;
use machine::State;
use model::Outcome;
use steplog::Row;
use word::bytes::load_at;

// Why a step has no row. A refusal by its number, as the crate refusal says why.
#[derive(Clone, Copy)]
pub enum NoRow {
    Trap { cause: u64, value: u64 },
    Refused { number: u64 },
}

// The row of a step, with the state after the step.
#[derive(Clone, Copy)]
pub struct MadeStep {
    pub made: Result<Row, NoRow>,
    pub state: State,
}

// The word at hart h's pc, where it can be fetched. Only the harts that there can be are looked at. Where it can't be fetched the step traps, so that no row
// has the 0: an Option would have its caller say what row to make of no word.
fn word_of(s: &State, h: usize, base: u64, mem: &[u8]) -> u32
    ensures { inside_of base (length mem.now) (get_or s.now.pc (h % 8) 0) 4 ≡ true
        → result ≡ value_at base mem.now (get_or s.now.pc (h % 8) 0) 4 }
{
    let at = s.pc[h % 8];
    if !reserve::inside(base, mem.len() as u64, at, 4) {
        return 0;
    }
    load_at(mem, (at - base) as usize, 4) as u32
}

// The register that a row of an instruction shows.
#[tactic(auto, unfolding(reach::specs::Rd::shown_rd))]
fn shown_rd(i: Instr) -> usize
    ensures { result ≡ shown_rd i }
{
    match i {
        Instr::Lui { rd, .. }
        | Instr::Auipc { rd, .. }
        | Instr::Jal { rd, .. }
        | Instr::Jalr { rd, .. }
        | Instr::Load { rd, .. }
        | Instr::OpImm { rd, .. }
        | Instr::OpImm32 { rd, .. }
        | Instr::Op { rd, .. }
        | Instr::Op32 { rd, .. } => rd,
        Instr::Amo(m) => m.rd,
        Instr::Branch { .. }
        | Instr::Store { .. }
        | Instr::Fence { .. }
        | Instr::Ecall
        | Instr::Ebreak
        | Instr::Illegal => 0,
    }
}

// The row of a step: pc and word are those before it, the registers those after it.
fn row_of(before: &State, after: &State, h: usize, word: u32) -> Row
    ensures { result ≡ record {
      hart = h;
      pc = get_or before.now.pc (h % 8) 0;
      word = word;
      rd = shown_rd (decode_at (xlen_of before.now.settings) word);
      value = reg_at after.now.x (h % 8) (shown_rd (decode_at (xlen_of before.now.settings) word));
    } }
{
    let rd = shown_rd(isa::decode_at(word, settings::xlen(before.settings)));
    Row {
        hart: h,
        pc: before.pc[h % 8],
        word,
        rd,
        value: dispatch::reg(&after.x, h % 8, rd),
    }
}

// The row goes with an outcome that says the step retired.
#[tactic(auto, unfolding(crate::specs::Made::made_by))]
fn made_by(o: Outcome, r: Row) -> Result<Row, NoRow>
    ensures { result ≡ made_by o r }
{
    match o {
        Outcome::Retired | Outcome::ScStored | Outcome::ScFailed => Ok(r),
        Outcome::Trap { cause, value } => Err(NoRow::Trap { cause, value }),
        Outcome::Refused { number } => Err(NoRow::Refused { number }),
    }
}

// Hart h's step, and the row of it.
pub fn make_row(s: State, base: u64, mem: &mut [u8], h: usize) -> MadeStep
    ensures made_value { result.made ≡ made_of base (record { state = s; mem = mem.old }) h }
    ensures state_value { result.state ≡ (next_of base (record { state = s; mem = mem.old }) (Step h)).state }
    ensures mem_after { mem.new ≡ (next_of base (record { state = s; mem = mem.old }) (Step h)).mem }
{
    let word = word_of(&s, h, base, mem);
    let a = model::step(s, base, mem, h);
    let row = row_of(&s, &a.state, h, word);
    MadeStep {
        made: made_by(a.outcome, row),
        state: a.state,
    }
}
