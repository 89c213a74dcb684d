// Theorems only: what the version of A decides of an event, a run and a replay.
#![tactic(auto)]
