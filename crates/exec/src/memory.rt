// Loads and stores.
ghost use Rattle.std.specs.Prelude.{◌≡◌, ℕ, ◌*◌, ◌≤◌, ◌<◌, ◌^◌};
ghost use Rattle.effect.specs.Effect.{done_of, Meets};
ghost use Rattle.effect.specs.Memory.{fault_of, load_bytes, extended, exec_load, store_bytes, exec_store};

use crate::Site;
use effect::{Effect, Trap};
use isa::{LoadOp, StoreOp};
use reserve::Notice;
use word::bytes::{load_at, store_at};
use word::num::sign_extend;

// The cause of an access of n bytes at a that traps, or 0. The caller gives both causes: 4 and 5 for what loads, 6 and 7 for what stores; an atomic access
// has the first by its setting.
#[tactic(auto, unfolding(effect::specs::Memory::fault_of))]
pub fn fault(unaligned: u64, outside: u64, a: u64, n: usize, base: u64, len: usize) -> u64
    requires { 0 < n }
    ensures { result ≡ fault_of unaligned outside a n base len }
{
    if a % (n as u64) != 0 {
        return unaligned;
    }
    if reserve::inside(base, len as u64, a, n as u64) {
        return 0;
    }
    outside
}

fn load_bytes(op: LoadOp) -> usize
    ensures { (result ≡ load_bytes op) × (0 < result) × (result ≤ 8) }
{
    match op {
        LoadOp::Lb | LoadOp::Lbu => 1,
        LoadOp::Lh | LoadOp::Lhu => 2,
        LoadOp::Lw | LoadOp::Lwu => 4,
        LoadOp::Ld => 8,
    }
}

// What was loaded, as a register has it.
fn extend(xlen: u32, op: LoadOp, v: u64) -> u64
    requires { (8 * load_bytes op ≤ xlen) × (xlen ≤ 64) × (v < 256 ^ load_bytes op) }
    ensures { result ≡ extended xlen op v }
{
    match op {
        LoadOp::Lb => sign_extend(v, 8, xlen),
        LoadOp::Lh => sign_extend(v, 16, xlen),
        LoadOp::Lw => sign_extend(v, 32, xlen),
        _ => v,
    }
}

// The answer is the same for every hart h.
pub fn load(site: Site, op: LoadOp, rd: usize, a: u64, mem: &[u8]) -> Result<Effect, Trap>
    requires { 8 * load_bytes op ≤ site.xlen }
    ensures { (h : ℕ) → result ≡ done_of h (exec_load site.xlen op rd a site.pc site.base mem.now) }
{
    let n = load_bytes(op);
    let at = site.access(4, 5, a, n, mem.len())?;
    let v = load_at(mem, at, n);
    site.retire(rd, extend(site.xlen, op, v), Notice::Quiet)
}

fn store_bytes(op: StoreOp) -> usize
    ensures { (result ≡ store_bytes op) × (0 < result) × (result ≤ 8) }
{
    match op {
        StoreOp::Sb => 1,
        StoreOp::Sh => 2,
        StoreOp::Sw => 4,
        StoreOp::Sd => 8,
    }
}

pub fn store(site: Site, op: StoreOp, a: u64, v: u64, mem: &mut [u8]) -> Result<Effect, Trap>
    ensures { Meets site.hart (exec_store site.xlen op a v site.pc site.base mem.old) site.base mem.old result mem.new }
{
    let n = store_bytes(op);
    let at = site.access(6, 7, a, n, mem.len())?;
    store_at(mem, at, n, v);
    site.retire(
        0,
        0,
        Notice::Write {
            hart: site.hart,
            addr: a,
            len: n as u64,
        },
    )
}
