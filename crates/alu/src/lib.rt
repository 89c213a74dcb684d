// What instructions compute: the integer operations, and the leaves of the atomic ones.
#![tactic(auto)]

pub mod atomic;
pub mod integer;
pub mod swap;
