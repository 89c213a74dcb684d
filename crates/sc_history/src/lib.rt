// Theorems only: when an SC of a run succeeds.
#![tactic(auto)]
