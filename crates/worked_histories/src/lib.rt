// Histories of the world of demand 3, computed on records, words and bytes: laws, no code.
#![tactic(auto)]
