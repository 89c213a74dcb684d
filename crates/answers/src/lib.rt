// Theorems only: every event has an answer, and which one (01, demand 1).
#![tactic(auto)]
