// Theorems only: who lost a reservation to an event, in words.
#![tactic(auto)]
