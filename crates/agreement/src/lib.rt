// Demand 3 on records, log words and message bytes: the world and the claim in specs/, their proof in proofs/; no code.
#![tactic(auto)]
