// The reader of case files: refusals 7 to 11.
#![tactic(auto)]

ghost use Rattle.std.specs.Prelude.{◌≡◌, ◌+◌, ◌*◌, ◌-◌, ◌/◌, ◌%◌, ◌^◌, ◌≤◌, ◌<◌, true, IsTrue, cond, eqb, ltb, length, drop, replicate};
ghost use Rattle.word.specs.Each.{each, all_below};
ghost use Rattle.word.specs.Memory.{part};
ghost use Rattle.casefile.specs.Table.{entry_of, table_of, EndsWithin, InsideFile};
ghost use Rattle.casefile.specs.Harts.{number_of, register_of, pc_of, harts_ok, HartsRules, settings_of, state_of, no_state};
ghost use Rattle.casefile.specs.Case.{memory_body_ok, parts_of, case_on, case_of, SoundCase};
ghost use Rattle.settings.specs.Boards.{BoardRules};

use machine::{LEAST, MOST, NARROW, State, TOP};
use refusal::Refusal;
use settings::{Board, Settings, remainder};
use word::bytes::{field, load_at};

// Where the memory and the events of a file start. Its harts start at 40.
#[derive(Clone, Copy)]
struct Bodies {
    memory: usize,
    events: usize,
}

// A file read: where its memory and its events start, and what its harts body says.
#[derive(Clone, Copy)]
pub struct Case {
    pub memory: usize,
    pub events: usize,
    pub base: u64,
    pub state: State,
}

// Where the body of the table's entry at a place ends, or the entry's first wrong field. It is to have this kind and this offset. The bound on the offset
// keeps the body's end from overflowing.
#[tactic(auto, unfolding(crate::specs::Table::entry_of))]
fn read_entry(file: &[u8], place: usize, kind: usize, offset: usize) -> Result<usize, Refusal>
    requires { (place + 12 ≤ length file.now) × (offset < 2 ^ 40) }
    ensures value { result ≡ entry_of file.now place kind offset }
    ensures ends_within { EndsWithin offset result }
{
    if field(file, place) != kind {
        return Err(Refusal { number: 8, place });
    }
    if field(file, place + 4) != offset {
        return Err(Refusal {
            number: 8,
            place: place + 4,
        });
    }
    Ok(offset + field(file, place + 8))
}

// Refusals 7 and 8.
#[tactic(auto, unfolding(crate::specs::Table::table_of))]
fn read_table(file: &[u8]) -> Result<Bodies, Refusal>
    ensures { result ≡ table_of file.now }
{
    if file.len() < 40 || 65536 < file.len() {
        return Err(Refusal {
            number: 7,
            place: 0,
        });
    }
    if field(file, 0) != 3 {
        return Err(Refusal {
            number: 8,
            place: 0,
        });
    }
    let memory = read_entry(file, 4, 1, 40)?;
    let events = read_entry(file, 16, 2, memory)?;
    let end = read_entry(file, 28, 3, events)?;
    if end != file.len() {
        let place = 36; // the last length
        return Err(Refusal { number: 8, place });
    }
    Ok(Bodies { memory, events })
}

// A harts body that is as long as its count of harts says.
#[derive(Clone, Copy)]
struct Harts<'a> {
    body: &'a [u8],
    count: usize,
    ghost whole: { length body.now ≡ 16 + 256 * count },
}

impl Harts<'_> {
    // Whether the pc of each hart is a multiple of 4. Tried as (0..count).all(..), here and below: the proof didn't close, since std says it by a list of
    // numbers and the definition by all_below.
    #[tactic(auto, using(word::proofs::EachLaws::all_none, word::proofs::EachLaws::all_more))]
    fn pcs_ok(self) -> bool
        ensures { result ≡ all_below (λ h. eqb (pc_of self.entry.body.now h % 4) 0) self.entry.count }
    {
        for h in 0..self.count {
            if self.pc(h) % 4 != 0 {
                return false;
            }
        }
        true
    }

    // Whether the numbers of a 32-bit case, those of each hart, have 32 bits.
    #[tactic(auto, using(word::proofs::EachLaws::all_none, word::proofs::EachLaws::all_more))]
    fn halves_ok(self, kind: usize) -> bool
        ensures { result ≡ cond (eqb kind 1) (all_below (λ i. ltb (number_of self.entry.body.now i) (2 ^ 32)) (32 * self.entry.count)) true }
    {
        if kind != 1 {
            return true;
        }
        for i in 0..32 * self.count {
            if NARROW <= load_at(self.body, 16 + 8 * i, 8) {
                return false;
            }
        }
        true
    }

    // x of register r of hart h.
    fn register(self, h: usize, r: usize) -> u64
        requires { (r < 32) × (h < self.count) }
        ensures { result ≡ register_of self.entry.body.now h r }
    {
        if r == 0 {
            return 0;
        }
        load_at(self.body, 16 + 256 * h + 8 * (r - 1), 8)
    }

    // The pc of hart h.
    fn pc(self, h: usize) -> u64
        requires { h < self.count }
        ensures { result ≡ pc_of self.entry.body.now h }
    {
        load_at(self.body, 16 + 256 * h + 248, 8)
    }

    // The registers, hart by hart, as a state holds them.
    fn registers(self) -> [u64; 256]
        requires { self.count ≤ 8 }
        ensures { result ≡ each (λ i _. register_of self.entry.body.now (i / 32) (i % 32)) (32 * self.entry.count) (replicate 256 0) }
    {
        let mut x = [0; 256];
        for i in 0..32 * self.count {
            x[i] = self.register(i / 32, i % 32);
        }
        x
    }

    // The pcs, hart by hart, as a state holds them. Tried as pc.iter_mut().take(count).enumerate(): the proof didn't close, since the loop's
    // invariant has no name for the array then. The registers' loop is of that shape too.
    fn pcs(self) -> [u64; 8]
        requires { self.count ≤ 8 }
        ensures { result ≡ each (λ h _. pc_of self.entry.body.now h) self.entry.count (replicate 8 0) }
    {
        let mut pc = [0; 8];
        for h in 0..self.count {
            pc[h] = self.pc(h);
        }
        pc
    }

    // The state that the body is on a board.
    #[tactic(auto, unfolding(crate::specs::Harts::state_of))]
    fn state(self, board: Board) -> State
        requires { self.count ≤ 8 }
        ensures { result ≡ state_of board self.entry.count self.entry.body.now }
    {
        State {
            count: self.count,
            settings: read_settings(board, self.body),
            x: self.registers(),
            pc: self.pcs(),
            res: [None; 8],
        }
    }
}

// What the case of a harts body is set to on a board.
fn read_settings(board: Board, body: &[u8]) -> Settings
    requires { 16 ≤ length body.now }
    ensures { result ≡ settings_of board body.now }
{
    settings::on_board(board, field(body, 12) as u64)
}

// Whether refusal 9 does not name a harts body. The kind's two numbers are written out, as in the definition: `settings` asks it of settings, with the version.
#[tactic(auto, unfolding(crate::specs::Harts::harts_ok))]
fn harts_ok(board: Board, body: &[u8]) -> bool
    requires { BoardRules board }
    ensures value { result ≡ harts_ok board body.now }
    ensures rules { IsTrue result → HartsRules board body.now }
{
    if body.len() < 16 {
        return false;
    }
    let count = field(body, 8);
    if body.len() != 16 + 256 * count {
        return false;
    }
    let harts = Harts { body, count };
    let base = load_at(body, 0, 8);
    let kind = field(body, 12);
    let granule = settings::granule(read_settings(board, body));
    1 <= count
        && count <= 8
        && (kind == 0 || kind == 1)
        && remainder(base, granule) == 0
        && base <= TOP
        && harts.pcs_ok()
        && harts.halves_ok(kind)
}

// Whether refusal 10 does not name a memory body of so many bytes, beside a harts body that 9 does not name.
#[tactic(auto, unfolding(crate::specs::Case::memory_body_ok, crate::specs::Case::length_ok))]
fn memory_ok(board: Board, harts: &[u8], len: usize) -> bool
    requires board_rules { BoardRules board }
    requires harts_rules { HartsRules board harts.now }
    ensures { result ≡ memory_body_ok board harts.now len }
{
    let settings = read_settings(board, harts);
    let granule = settings::granule(settings);
    LEAST <= len
        && len <= MOST
        && remainder(len as u64, granule) == 0
        && machine::top_ok(settings, load_at(harts, 0, 8), len)
}

// A machine without harts, with the default settings and all else zero: what stands for the state of a file that is refused. A replay's
// answer to such a file has a state (file_replay), so that there has to be one.
#[tactic(auto, unfolding(crate::specs::Harts::no_state))]
pub fn no_state() -> State
    ensures { result ≡ no_state }
{
    State {
        count: 0,
        settings: settings::defaults(),
        x: [0; 256],
        pc: [0; 8],
        res: [None; 8],
    }
}

// Refusals 9 to 11 of a file, by where its bodies start.
#[tactic(auto, using(word::proofs::MemoryLaws::length_part), unfolding(crate::specs::Case::bodies_of, word::specs::Memory::part))]
fn read_bodies(board: Board, file: &[u8], bodies: Bodies) -> Result<Case, Refusal>
    requires board_rules { BoardRules board }
    requires inside_file { InsideFile (length file.now) (Ok bodies) }
    ensures { result ≡ parts_of board file.now (Ok bodies) }
{
    let Bodies { memory, events } = bodies;
    let harts = &file[40..memory];
    if !harts_ok(board, harts) {
        return Err(Refusal {
            number: 9,
            place: 40,
        });
    }
    if !memory_ok(board, harts, events - memory) {
        return Err(Refusal {
            number: 10,
            place: memory,
        });
    }
    let base = load_at(harts, 0, 8);
    let count = field(harts, 8);
    if let Err(place) = events::check(&file[events..], count, base, events - memory) {
        return Err(Refusal {
            number: 11,
            place: events + place,
        });
    }
    let state = Harts { body: harts, count }.state(board);
    Ok(Case {
        memory,
        events,
        base,
        state,
    })
}

// The case that a file is on a board, or why it is none.
#[tactic(auto, using(crate::proofs::TableLaws::table_inside, crate::proofs::CaseLaws::case_sound_on), unfolding(crate::specs::Case::case_on))]
pub fn read_case_on(board: Board, file: &[u8]) -> Result<Case, Refusal>
    requires { BoardRules board }
    ensures value { result ≡ case_on board file.now }
    ensures sound_case { SoundCase file.now result }
{
    let bodies = read_table(file)?;
    read_bodies(board, file, bodies)
}

// The case that a file is, or why it is none. README and docs name it: the one on a board, at the default board.
#[tactic(auto, using(settings::proofs::SettingsLaws::default_board_allowed))]
pub fn read_case(file: &[u8]) -> Result<Case, Refusal>
    ensures value { result ≡ case_of file.now }
    ensures sound_case { SoundCase file.now result }
{
    read_case_on(settings::default_board(), file)
}
