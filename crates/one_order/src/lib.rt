// Demand 3 on the lists of `protocol`: the one-order theorem and what it stands on, in proofs/; no code.
#![tactic(auto)]
