// Theorems only: where a replay of a log stops, and why (02 [1]).
#![tactic(auto)]
