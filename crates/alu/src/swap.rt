// Compare-and-swap of bytes in memory.
ghost use Rattle.std.specs.Prelude.{◌≡◌, ◌+◌, ◌^◌, ◌<◌, ◌≤◌, cond, length, if◌then◌else◌, ◌==◌, nat_eq};
ghost use Rattle.word.specs.Bytes.{le, to_le};
ghost use Rattle.word.specs.Memory.{part, splice};
ghost use Rattle.isa.specs.Width.{bits_of, pair_bytes};
ghost use Rattle.alu.specs.Pair.{joined};

use isa::Width;
use word::bytes::{load_at, load_le, store_at, store_le};

// A number as a pair of registers holds it, each half of them of a width. The halves' bound is a clause and no invariant: the width isn't in the pair.
#[derive(Clone, Copy, PartialEq, Eq)]
pub struct Pair {
    pub low: u64,
    pub high: u64,
}

// Sets the lent bytes to new if their number is the wanted one: their old number.
fn compare_swap(bytes: &mut [u8], want: u64, new: u64) -> u64
    requires { length bytes.old ≤ 8 }
    ensures value { result ≡ le bytes.old }
    ensures bytes_after { bytes.new ≡ (if nat_eq (le bytes.old) want then to_le (length bytes.old) new else bytes.old) }
{
    let old = load_le(bytes);
    if old == want {
        store_le(bytes, new);
    }
    old
}

// The same in a memory: only the n bytes from at on are lent.
pub fn compare_swap_at(mem: &mut [u8], at: usize, n: usize, want: u64, new: u64) -> u64
    requires n_in_bounds { at + n ≤ length mem.old }
    requires n_bound { n ≤ 8 }
    ensures value { result ≡ le (part mem.old at n) }
    ensures mem_after { mem.new ≡ (if nat_eq (le (part mem.old at n)) want then splice mem.old at (to_le n new) else mem.old) }
{
    compare_swap(&mut mem[at..at + n], want, new)
}

// Whether two pairs are one number. The width is in the contract alone: pairs of other halves could differ and be one number.
pub fn same(w: Width, p: Pair, q: Pair) -> bool
    requires { (p.low < 2 ^ bits_of w) × (q.low < 2 ^ bits_of w) }
    ensures { result ≡ (joined w p == joined w q) }
{
    p == q
}

// Sets the lent bytes of a pair to new if their number is the wanted one: their old number.
fn compare_swap_pair(bytes: &mut [u8], w: Width, want: Pair, new: Pair) -> Pair
    requires bytes_len { length bytes.old ≡ pair_bytes w }
    requires low_bound { (want.low < 2 ^ bits_of w) × (new.low < 2 ^ bits_of w) }
    ensures result_value { (joined w result ≡ le bytes.old) × (result.low < 2 ^ bits_of w) × (result.high < 2 ^ bits_of w) }
    ensures bytes_after { bytes.new ≡ (if nat_eq (le bytes.old) (joined w want) then to_le (pair_bytes w) (joined w new) else bytes.old) }
{
    let n = isa::bytes_of(w);
    let low = load_at(bytes, 0, n);
    let high = load_at(bytes, n, n);
    let old = Pair { low, high };
    if same(w, old, want) {
        store_at(bytes, 0, n, new.low);
        store_at(bytes, n, n, new.high);
    }
    old
}

// The same in a memory: only the bytes of the pair from at on are lent.
pub fn compare_swap_pair_at(mem: &mut [u8], at: usize, w: Width, want: Pair, new: Pair) -> Pair
    requires w_in_bounds { at + pair_bytes w ≤ length mem.old }
    requires low_bound { (want.low < 2 ^ bits_of w) × (new.low < 2 ^ bits_of w) }
    ensures result_value { (joined w result ≡ le (part mem.old at (pair_bytes w))) × (result.low < 2 ^ bits_of w) × (result.high < 2 ^ bits_of w) }
    ensures mem_after { mem.new
        ≡ cond ((le (part mem.old at (pair_bytes w))) == joined w want)
        (splice mem.old at (to_le (pair_bytes w) (joined w new))) mem.old }
{
    let end = at + isa::pair_bytes_of(w);
    compare_swap_pair(&mut mem[at..end], w, want, new)
}
