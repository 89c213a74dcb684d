// Text that is put into a lent buffer, at a position. Each function returns the position past what it put: answers go to buffers of fixed size, and C is told
// how far they are full.
#![tactic(auto)]

ghost use Rattle.std.specs.Prelude.{◌≡◌, ◌∷◌, [], ◌+◌, ◌≤◌, ◌<◌, length};
ghost use Rattle.text.specs.Put.{Put};
ghost use Rattle.text.specs.Number.{glyph, decimal_of, digits_from, hex_from};

// One byte.
pub fn put_byte(out: &mut [u8], at: usize, b: u8) -> usize
    requires { at < length out.old }
    ensures { Put out.old at (b ∷ []) out.new result }
{
    out[at] = b;
    at + 1
}

// The bytes of s.
pub fn put_bytes(out: &mut [u8], at: usize, s: &[u8]) -> usize
    requires { at + length s.now ≤ length out.old }
    ensures { Put out.old at s.now out.new result }
{
    // A loop and no copy_from_slice: that calls memmove, and the library for C needs only memcpy and memset.
    for i in 0..s.len() {
        out[at + i] = s[i];
    }
    at + s.len()
}

// How many digits n has in decimal.
fn decimal_length(n: u64) -> usize
    ensures { result ≡ length (decimal_of n) }
{
    match n.checked_ilog10() {
        Some(k) => k as usize + 1,
        None => 1,
    }
}

// The last k digits of n in a base, from the last back to the first. A table of their characters is faster than a test of each digit, and a base that the
// compiler knows faster than one that is given. By place: what is left of n goes from the last place to the first.
pub fn put_digits<const BASE: u64>(out: &mut [u8], at: usize, n: u64, k: usize) -> usize
    requires { (at + k ≤ length out.old) × (0 < BASE) × (BASE ≤ 16) }
    ensures put { Put out.old at (digits_from BASE k n) out.new result }
    ensures value { result ≡ at + k }
{
    let digits = b"0123456789abcdef";
    let mut rest = n;
    for i in (0..k).rev() {
        out[at + i] = digits[(rest % BASE) as usize];
        rest /= BASE;
    }
    at + k
}

// The character of a digit below ten.
fn decimal_digit(d: u64) -> u8
    requires { d < 10 }
    ensures { result ≡ glyph d }
{
    b'0' + d as u8
}

// n in decimal, from its last digit back to its first, which is what is left of n below ten. Not by put_digits::<10>: a report of 2,715 events takes 5 percent
// more instructions by it.
pub fn put_decimal(out: &mut [u8], at: usize, n: u64) -> usize
    requires { at + 20 ≤ length out.old }
    ensures put { Put out.old at (decimal_of n) out.new result }
    ensures upper_bound { result ≤ at + 20 }
{
    let past = at + decimal_length(n);
    let mut p = past;
    let mut rest = n;
    while 10 <= rest {
        p -= 1;
        out[p] = decimal_digit(rest % 10);
        rest /= 10;
    }
    out[at] = decimal_digit(rest);
    past
}

// The last k hexadecimal digits of n.
pub fn put_hex(out: &mut [u8], at: usize, n: u64, k: usize) -> usize
    requires { at + k ≤ length out.old }
    ensures put { Put out.old at (hex_from k n) out.new result }
    ensures value { result ≡ at + k }
{
    put_digits::<16>(out, at, n, k)
}
