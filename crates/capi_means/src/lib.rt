// Theorems only: what the contracts of `capi` come to for a caller.
#![tactic(auto)]
