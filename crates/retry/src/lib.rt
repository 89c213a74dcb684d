// The checker of retry loops: document 01, "Retry loops", by the version of A and the register width that the settings have.
#![tactic(auto)]

ghost use Rattle.std.specs.Prelude.{◌≡◌, ◌≤◌, length};
ghost use Rattle.retry.specs.Loop.{check_of, scan_of};

use settings::Settings;

mod bytes;
mod look;
mod reasons;

pub use bytes::check_bytes;

// What the checker sees of a word: an LR, an SC, a word that is permitted after the LR by what it writes and where it leads, or any other.
#[derive(Clone, Copy)]
pub enum View {
    Lr { rd: usize, rs1: usize, width: usize },
    Sc { rs1: usize, width: usize },
    Plain { rd: usize },
    Jump { rd: usize, offset: u64 },
    Branch { offset: u64 },
    Other,
}

// Refused has 01's number: 2 for a version that is not kept, 6 for a block that is too short or too long. An enum of its own: the theorem `exactly` of
// proofs/ReasonLaws speaks of the three ends, the place, the reason and the number.
#[derive(Clone, Copy)]
pub enum LoopAnswer {
    Accepted,
    Rejected { place: usize, reason: u64 },
    Refused { number: u64 },
}

// The words from place 0 on, which is an LR of this rs1 and width.
#[tactic(auto, using(crate::proofs::ScanLaws::scan_stop, crate::proofs::ScanLaws::scan_on, crate::proofs::ScanLaws::scan_end), unfolding(crate::specs::Loop::past_sc))]
fn scan(settings: Settings, words: &[u32], rs1: usize, width: usize) -> LoopAnswer
    requires { length words.now ≤ 16 }
    ensures { result ≡ scan_of settings rs1 width words.now (length words.now) 0 }
{
    let mut past = false;
    for (place, &word) in words.iter().enumerate() {
        let v = look::look(settings, word);
        if let Some(reason) = reasons::lowest(rs1, width, past, place, v) {
            return LoopAnswer::Rejected { place, reason };
        }
        past |= reasons::is_sc(v);
    }
    if past {
        LoopAnswer::Accepted
    } else {
        LoopAnswer::Rejected {
            place: words.len(),
            reason: 6,
        }
    }
}

// Whether a block of words is a retry loop that is accepted under the settings' version, or else the lowest place with a reason and the lowest reason
// there. The size of the sets is not looked at.
#[tactic(auto, unfolding(crate::specs::Loop::check_of, crate::specs::Loop::start_of))]
pub fn check_loop(settings: Settings, words: &[u32]) -> LoopAnswer
    ensures { result ≡ check_of settings words.now }
{
    if !settings::reading_ok(settings) {
        return LoopAnswer::Refused { number: 2 };
    }
    if words.len() < 2 || 16 < words.len() {
        return LoopAnswer::Refused { number: 6 };
    }
    let View::Lr { rs1, width, .. } = look::look(settings, words[0]) else {
        return LoopAnswer::Rejected {
            place: 0,
            reason: 1,
        };
    };
    scan(settings, words, rs1, width)
}
