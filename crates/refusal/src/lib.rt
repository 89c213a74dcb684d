// What every refusal of bad bytes says: its number, and the place of what is refused, counted from the first byte. A number
// and no enum: the theorems on refusals (refused_exact, run_refused_exact) speak of it, programs print it, and C is given it.
#![tactic(auto)]

#[derive(Clone, Copy, PartialEq, Eq)]
pub struct Refusal {
    pub number: u64,
    pub place: usize,
}
