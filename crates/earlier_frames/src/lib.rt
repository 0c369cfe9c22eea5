// Earlier frames in the world of demand 3: the claim in specs/, its proof in proofs/; no code.
#![tactic(auto)]
