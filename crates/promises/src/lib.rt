// What is claimed of every sound record, beside what the contracts of `frame`, `issuing`, `folding` and `both_frames` say: the claims in specs/, their
// proofs in proofs/; no code.
#![tactic(auto)]
