// The reasons 2 to 5 of document 01, "Retry loops". past says that an SC stands before the place.
ghost use Rattle.std.specs.Prelude.{◌≡◌, ◌<◌};
ghost use Rattle.retry.specs.Loop.{is_sc, wrong_offset, clobbers, reason2, reason3, reason4, reason5, lowest_of, reason_in};

use crate::View;

pub fn is_sc(v: View) -> bool
    ensures { result ≡ is_sc v }
{
    matches!(v, View::Sc { .. })
}

fn not_permitted(past: bool, place: usize, v: View) -> bool
    ensures { result ≡ reason2 past place v }
{
    match v {
        View::Lr { .. } | View::Other => 0 < place,
        View::Sc { .. } => 0 < place && past,
        _ => false,
    }
}

// The sum of place and offset wraps where the offset is negative.
#[tactic(auto, unfolding(crate::specs::Loop::wrong_offset))]
fn wrong_offset(past: bool, place: usize, offset: u64) -> bool
    requires { place < 16 }
    ensures { result ≡ wrong_offset past place offset }
{
    let is_above = 0 < offset.cast_signed();
    let target = (4 * (place as u64)).wrapping_add(offset);
    offset % 4 != 0 || (!is_above && !(past && target == 0))
}

fn bad_jump(past: bool, place: usize, v: View) -> bool
    requires { place < 16 }
    ensures { result ≡ reason3 past place v }
{
    match v {
        View::Jump { offset, .. } | View::Branch { offset } => wrong_offset(past, place, offset),
        _ => false,
    }
}

#[tactic(auto, unfolding(crate::specs::Loop::clobbers))]
fn is_source(rs1: usize, rd: usize) -> bool
    ensures { result ≡ clobbers rs1 rd }
{
    rd == rs1 && rs1 != 0
}

fn overwrites(rs1: usize, past: bool, v: View) -> bool
    ensures { result ≡ reason4 rs1 past v }
{
    match v {
        View::Lr { rd, .. } | View::Plain { rd } | View::Jump { rd, .. } => {
            !past && is_source(rs1, rd)
        }
        _ => false,
    }
}

fn other_target(rs1: usize, width: usize, past: bool, v: View) -> bool
    ensures { result ≡ reason5 rs1 width past v }
{
    match v {
        View::Sc { rs1: s, width: w } => !past && (w != width || s != rs1),
        _ => false,
    }
}

// The lowest reason at a place of the block behind an LR of this rs1 and width.
#[tactic(auto, unfolding(crate::specs::Loop::lowest_of))]
pub fn lowest(rs1: usize, width: usize, past: bool, place: usize, v: View) -> Option<u64>
    requires { place < 16 }
    ensures { result ≡ reason_in (lowest_of rs1 width past place v) }
{
    if not_permitted(past, place, v) {
        Some(2)
    } else if bad_jump(past, place, v) {
        Some(3)
    } else if overwrites(rs1, past, v) {
        Some(4)
    } else if other_target(rs1, width, past, v) {
        Some(5)
    } else {
        None
    }
}
