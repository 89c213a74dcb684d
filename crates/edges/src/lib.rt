// The table of the twelve edges, and the statement over it: in specs/ and proofs/.
#![tactic(auto)]
