// The functions that C and Rust call, as `capi_c` exports them: include/floecavern.h says how. None of those has a precondition.
#![tactic(auto)]

pub mod replay;
pub mod settings_files;
pub mod steps;

ghost use Rattle.std.specs.Prelude.{◌≡◌, ◌/◌, length};
ghost use Rattle.settings.specs.Settings.{defaults, of_kind};
ghost use Rattle.retry.specs.Loop.{check_of, words_of};
ghost use Rattle.capi.specs.Answers.{Reported, loop_number, loop_answer};

use retry::LoopAnswer;
use settings::Settings;

// The answer to arguments of a wrong size: a number, since C gets one.
pub const BAD_SIZE: u64 = u64::MAX;

// The text of any bytes: as many bytes of out as the result says are all that the program writes for them where no board is given. 2^64 - 1 if out has
// fewer than 262,144 bytes.
pub fn floecavern_report(file: &[u8], out: &mut [u8]) -> u64
    ensures { Reported file.now out.old out.new result }
{
    if out.len() < 262144 {
        return BAD_SIZE;
    }
    report::put_report(&mut out[..262144], file) as u64
}

// The checker's answer as a number.
#[tactic(auto, using(crate::proofs::LoopLaws::small_check))]
fn loop_number(settings: Settings, bytes: &[u8]) -> u64
    ensures { result ≡ loop_number (check_of settings (words_of bytes.now (length bytes.now / 4))) }
{
    match retry::check_bytes(settings, bytes) {
        LoopAnswer::Accepted => 0,
        LoopAnswer::Rejected { place, reason } => 256 * (place as u64 + 1) + reason,
        LoopAnswer::Refused { number } => number,
    }
}

// Whether words, 4 bytes each and the lowest first, are a retry loop that is accepted. 2^64 - 1 if they are not whole words.
#[tactic(auto, unfolding(crate::specs::Answers::loop_answer))]
fn check_words(settings: Settings, words: &[u8]) -> u64
    ensures { result ≡ loop_answer settings words.now }
{
    if words.len() % 4 != 0 {
        return BAD_SIZE;
    }
    loop_number(settings, words)
}

// The same under A 2.1, for the 64-bit core.
pub fn floecavern_check_loop(words: &[u8]) -> u64
    ensures { result ≡ loop_answer defaults words.now }
{
    check_words(settings::defaults(), words)
}

// The same under a version of A, for a kind of core.
pub fn floecavern_check_loop_for(version: u64, kind: u64, words: &[u8]) -> u64
    ensures { result ≡ loop_answer (of_kind version kind) words.now }
{
    check_words(settings::of_kind(version, kind), words)
}
