// Theorems only: from which events alone each notice comes.
#![tactic(auto)]
