// Theorems only: an accepted retry loop that is left alone finishes.
#![tactic(auto)]
