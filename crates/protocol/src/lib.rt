// Document 01 on lists, as document 02 has changed it: definitions in specs/, cases computed on them in proofs/; no code.
#![tactic(auto)]
