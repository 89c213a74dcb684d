// Theorems only: what the history of events says of a reservation.
#![tactic(auto)]
