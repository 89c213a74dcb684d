// A state kept as 2344 bytes at fixed offsets, as C and Rust keep it: specs/Layout.antt has the offsets.
#![tactic(auto)]

ghost use Rattle.std.specs.Prelude.{◌≡◌, ◌+◌, ◌*◌, ◌≤◌, length, take};
ghost use Rattle.word.specs.Memory.{splice};
ghost use Rattle.layout.specs.Layout.{state_size, word_at, reservation_at, settings_in, table, state_in, word_bytes, reservation_words, slot_words, state_over};

use machine::State;
use reserve::Reservation;
use settings::Settings;
use word::bytes::{load_at, store_at};

// How many bytes a state has.
pub const STATE_SIZE: usize = 2344;

// Sets out to the numbers from a place on.
pub fn load_words(bytes: &[u8], place: usize, out: &mut [u64])
    requires { place + 8 * length out.old ≤ length bytes.now }
    ensures { out.new ≡ table (λ i. word_at bytes.now (place + 8 * i)) (length out.old) }
{
    for (i, word) in out.iter_mut().enumerate() {
        *word = load_at(bytes, place + 8 * i, 8);
    }
}

// The reservation at a place.
#[tactic(auto, unfolding(crate::specs::Layout::reservation_at))]
fn load_reservation(bytes: &[u8], place: usize) -> Option<Reservation>
    requires { place + 24 ≤ length bytes.now }
    ensures { result ≡ reservation_at bytes.now place }
{
    if load_at(bytes, place, 8) == 0 {
        return None;
    }
    Some(Reservation {
        addr: load_at(bytes, place + 8, 8),
        width: load_at(bytes, place + 16, 8),
    })
}

// The reservations of all eight harts.
fn load_reservations(bytes: &[u8]) -> [Option<Reservation>; 8]
    requires { length bytes.now ≡ state_size }
    ensures { result ≡ table (λ h. reservation_at bytes.now (2120 + 24 * h)) 8 }
{
    let mut res = [None; 8];
    for (k, held) in res.iter_mut().enumerate() {
        *held = load_reservation(bytes, 2120 + 24 * k);
    }
    res
}

// The settings that the bytes have.
fn load_settings(bytes: &[u8]) -> Settings
    requires { length bytes.now ≡ state_size }
    ensures { result ≡ settings_in bytes.now }
{
    Settings {
        size: load_at(bytes, 2312, 8),
        version: load_at(bytes, 2320, 8),
        kind: load_at(bytes, 2328, 8),
        misaligned: load_at(bytes, 2336, 8),
    }
}

// The state that the bytes are.
#[tactic(auto, unfolding(crate::specs::Layout::state_in))]
pub fn read_state(bytes: &[u8]) -> State
    requires { length bytes.now ≡ state_size }
    ensures { result ≡ state_in bytes.now }
{
    let count = load_at(bytes, 0, 8) as usize;
    let settings = load_settings(bytes);
    let mut x = [0u64; 256];
    load_words(bytes, 8, &mut x);
    let mut pc = [0u64; 8];
    load_words(bytes, 2056, &mut pc);
    let res = load_reservations(bytes);
    State {
        count,
        settings,
        x,
        pc,
        res,
    }
}

// Writes numbers from a place on.
pub fn store_words(bytes: &mut [u8], place: usize, words: &[u64])
    requires { place + 8 * length words.now ≤ length bytes.old }
    ensures { bytes.new ≡ splice bytes.old place (word_bytes words.now) }
{
    for (i, word) in words.iter().enumerate() {
        store_at(bytes, place + 8 * i, 8, *word);
    }
}

// The three numbers of a reservation.
fn reservation_words(r: Option<Reservation>) -> [u64; 3]
    ensures { result ≡ reservation_words r }
{
    match r {
        None => [0, 0, 0],
        Some(Reservation { addr, width }) => [1, addr, width],
    }
}

// Writes the reservations of the first count harts.
fn store_reservations(bytes: &mut [u8], res: &[Option<Reservation>; 8], count: usize)
    requires { length bytes.old ≡ state_size }
    ensures { bytes.new ≡ splice bytes.old 2120 (word_bytes (slot_words (take count res.now))) }
{
    let used = &res[..count.min(8)];
    for (k, r) in used.iter().enumerate() {
        store_words(bytes, 2120 + 24 * k, &reservation_words(*r));
    }
}

// Puts a state over the bytes. The count, the settings and the reservations of unused harts keep their bytes.
#[tactic(auto, unfolding(crate::specs::Layout::state_over))]
pub fn write_state(bytes: &mut [u8], s: State)
    requires { length bytes.old ≡ state_size }
    ensures { bytes.new ≡ state_over bytes.old s }
{
    store_words(bytes, 8, &s.x);
    store_words(bytes, 2056, &s.pc);
    store_reservations(bytes, &s.res, s.count);
}
