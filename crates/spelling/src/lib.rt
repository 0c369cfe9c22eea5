// What a message says, its spelling and its strict reading: definitions in specs/, their laws in proofs/; no code.
#![tactic(auto)]
