// A block as the bytes of its words, the lowest byte of each first.
ghost use Rattle.std.specs.Prelude.{◌≡◌, ◌+◌, ◌*◌, ◌/◌, ◌≤◌, length, take};
ghost use Rattle.word.specs.Bytes.{le};
ghost use Rattle.word.specs.Memory.{part};
ghost use Rattle.retry.specs.Loop.{check_of, words_of};

use crate::LoopAnswer;
use settings::Settings;
use word::bytes::load_at;

#[tactic(auto, using(crate::proofs::BlockLaws::word_lt))]
fn word_at(bytes: &[u8], i: usize) -> u32
    requires { 4 * i + 4 ≤ length bytes.now }
    ensures { result ≡ le (part bytes.now (4 * i) 4) }
{
    load_at(bytes, 4 * i, 4) as u32
}

// The first n words, and zeros. With n beside them, since there is no heap here; by place, since a word is cut out of bytes.
#[tactic(auto, unfolding(crate::specs::Loop::words_of))]
fn words(bytes: &[u8], n: usize) -> [u32; 16]
    requires { (n ≤ 16) × (4 * n ≤ length bytes.now) }
    ensures { (length result ≡ 16) × (take n result ≡ words_of bytes.now n) }
{
    let mut found = [0u32; 16];
    for i in 0..n {
        found[i] = word_at(bytes, i);
    }
    found
}

// check_loop on the words. Up to three bytes behind the last whole word are no part of the block.
#[tactic(auto, using(crate::proofs::BlockLaws::too_long), unfolding(crate::specs::Loop::check_of))]
pub fn check_bytes(settings: Settings, bytes: &[u8]) -> LoopAnswer
    ensures { result ≡ check_of settings (words_of bytes.now (length bytes.now / 4)) }
{
    if !settings::reading_ok(settings) {
        return LoopAnswer::Refused { number: 2 };
    }
    let n = bytes.len() / 4;
    if 16 < n {
        return LoopAnswer::Refused { number: 6 };
    }
    let found = words(bytes, n);
    crate::check_loop(settings, &found[..n])
}
