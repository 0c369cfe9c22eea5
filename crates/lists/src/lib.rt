// Tests of lists are in specs/, their laws and those of the loops over lists in proofs/; no function.
#![tactic(auto)]
