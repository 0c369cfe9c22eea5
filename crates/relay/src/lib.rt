// Request (vi) on records, log words and message bytes: what is claimed in specs/, its proof in proofs/; no code.
#![tactic(auto)]
