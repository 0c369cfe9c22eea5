// What is true of lost edits in the world of demand 3: what is claimed in specs/, its proof in proofs/; no code.
#![tactic(auto)]
