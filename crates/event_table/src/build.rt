// The state and the memory of a case.
ghost use Rattle.std.specs.Prelude.{◌≡◌, if◌then◌else◌};
ghost use Rattle.word.specs.Each.{each};
ghost use Rattle.event_table.specs.Build.{filler, register_as, registers_of, pcs_of, reservation_as, reservations_of};
ghost use Rattle.event_table.specs.Build.{start_of, blank_of, begun_of, first_of, item_n, item_a, item_b};
ghost use Rattle.event_table.specs.Build.{with_setting, with_register, with_pc, with_reservation, harts_of, wiped, bytes_at, patch_of, memory_after};

use machine::State;
use reserve::Reservation;
use word::bytes::load_at;

// number counts the cases before this one.
#[derive(Drop)]
pub struct Case {
    pub number: u64,
    pub base: u64,
    pub len: usize,
    pub state: State,
}

// The three numbers of an item.
pub fn n(item: &[u8; 24]) -> u64
    ensures { result ≡ item_n item.now }
{
    load_at(item, 1, 7)
}

pub fn a(item: &[u8; 24]) -> u64
    ensures { result ≡ item_a item.now }
{
    load_at(item, 8, 8)
}

pub fn b(item: &[u8; 24]) -> u64
    ensures { result ≡ item_b item.now }
{
    load_at(item, 16, 8)
}

// Puts the default's bytes into memory.
pub fn fill(mem: &mut [u8; 8192])
    ensures { mem.new ≡ each (λ i _. filler i) 8192 mem.old }
{
    for (i, byte) in mem.iter_mut().enumerate() {
        *byte = ((i * 167 + 13) % 256) as u8;
    }
}

// Puts zeros in place of all bytes, unless wipe is 0.
#[tactic(auto, unfolding(crate::specs::Build::wiped))]
fn wipe_memory(mem: &mut [u8; 8192], wipe: u64)
    ensures { mem.new ≡ wiped wipe mem.old }
{
    if wipe != 0 {
        mem.fill(0);
    }
}

// x0 of a used hart is zero.
fn register(i: usize, count: usize, v: u64) -> u64
    ensures { result ≡ register_as i count v }
{
    if i % 32 == 0 && i / 32 < count { 0 } else { v }
}

// The default state's registers, pcs and reservations.
fn registers(count: usize) -> [u64; 256]
    ensures { result ≡ registers_of count }
{
    let mut x: [u64; 256] = [0; 256];
    let mut v: u64 = 0;
    for (i, value) in x.iter_mut().enumerate() {
        *value = register(i, count, v);
        v = v.wrapping_add(0x9E3779B97F4A7C15);
    }
    x
}

// The pc of a used hart is at base.
fn pc_value(used: bool, base: u64, v: u64) -> u64
    ensures { result ≡ (if used then base else v) }
{
    if used { base } else { v }
}

fn pcs(count: usize, base: u64, x: &[u64; 256]) -> [u64; 8]
    ensures { result ≡ pcs_of count base x.now }
{
    let mut pc: [u64; 8] = [0; 8];
    for (h, value) in pc.iter_mut().enumerate() {
        *value = pc_value(h < count, base, x[h * 32 + 1]);
    }
    pc
}

// A used hart has no reservation.
fn reservation(used: bool, addr: u64, width: u64) -> Option<Reservation>
    ensures { result ≡ reservation_as used addr width }
{
    if used {
        return None;
    }
    Some(Reservation { addr, width })
}

fn reservations(count: usize, x: &[u64; 256]) -> [Option<Reservation>; 8]
    ensures { result ≡ reservations_of count x.now }
{
    let mut res = [None; 8];
    for (h, held) in res.iter_mut().enumerate() {
        *held = reservation(h < count, x[h * 32 + 2], x[h * 32 + 3]);
    }
    res
}

// The default state of count harts.
#[tactic(auto, unfolding(crate::specs::Build::start_of))]
fn start(count: usize, base: u64) -> State
    ensures { result ≡ start_of count base }
{
    let x = registers(count);
    State {
        count,
        settings: settings::defaults(),
        x,
        pc: pcs(count, base, &x),
        res: reservations(count, &x),
    }
}

// A state of count harts without a reservation where all else is zero, also of unused harts.
#[tactic(auto, unfolding(crate::specs::Build::blank_of))]
fn blank_state(count: usize) -> State
    ensures { result ≡ blank_of count }
{
    State {
        count,
        settings: settings::defaults(),
        x: [0; 256],
        pc: [0; 8],
        res: [None; 8],
    }
}

// The default state, or a blank one.
#[tactic(auto, unfolding(crate::specs::Build::begun_of))]
fn begin(count: usize, base: u64, blank: u64) -> State
    ensures { result ≡ begun_of count base blank }
{
    if blank == 0 {
        return start(count, base);
    }
    blank_state(count)
}

// The default case, before any item.
#[tactic(auto, unfolding(crate::specs::Build::first_of))]
pub fn first(number: u64) -> Case
    ensures { result ≡ first_of number }
{
    Case {
        number,
        base: 0x1000,
        len: 256,
        state: start(2, 0x1000),
    }
}

// Setting 0 is the size of a reservation's set, 1 the version of A, 2 the kind of core, and 3 what a misaligned atomic access gives.
fn set_setting(s: &mut State, n: u64, v: u64)
    ensures { s.new ≡ with_setting s.old n v }
{
    match n {
        0 => s.settings.size = v,
        1 => s.settings.version = v,
        2 => s.settings.kind = v,
        3 => s.settings.misaligned = v,
        _ => {}
    }
}

fn set_register(s: &mut State, i: usize, v: u64)
    ensures { s.new ≡ with_register s.old i v }
{
    s.x[i % 256] = v;
}

fn set_pc(s: &mut State, h: usize, v: u64)
    ensures { s.new ≡ with_pc s.old h v }
{
    s.pc[h % 8] = v;
}

fn set_reservation(s: &mut State, h: usize, addr: u64, width: u64)
    ensures { s.new ≡ with_reservation s.old h addr width }
{
    s.res[h % 8] = Some(Reservation { addr, width });
}

// Puts the n lowest bytes of v into memory.
#[tactic(auto, unfolding(crate::specs::Build::bytes_at))]
fn set_bytes(mem: &mut [u8; 8192], at: usize, n: usize, v: u64)
    ensures { mem.new ≡ bytes_at mem.old at n v }
{
    if at <= 8184 && n <= 8 {
        word::bytes::store_at(mem, at, n, v);
    }
}

// A state after an item of kind 0 or 2 to 5. One of kind 2 puts the default settings back, so one of kind 0 has to come behind it.
#[tactic(auto, unfolding(crate::specs::Build::harts_of))]
fn harts(s: &mut State, base: u64, item: &[u8; 24])
    ensures { s.new ≡ harts_of s.old base item.now }
{
    let place = n(item) as usize;
    match item[0] {
        0 => set_setting(s, n(item), a(item)),
        2 => *s = begin(a(item) as usize, base, b(item)),
        3 => set_register(s, place, a(item)),
        4 => set_pc(s, place, a(item)),
        _ => set_reservation(s, place, a(item), b(item)),
    }
}

// A case after an item that is no event.
#[tactic(auto, unfolding(crate::specs::Build::patch_of, crate::specs::Build::memory_after))]
pub fn patch(c: &mut Case, mem: &mut [u8; 8192], item: &[u8; 24])
    ensures { (c.new ≡ patch_of c.old item.now) × (mem.new ≡ memory_after mem.old item.now) }
{
    match item[0] {
        1 => {
            wipe_memory(mem, n(item));
            c.base = a(item);
            c.len = b(item) as usize;
        }
        6 => set_bytes(mem, a(item) as usize, n(item) as usize, b(item)),
        _ => harts(&mut c.state, c.base, item),
    }
}
