// The laws of the definitions of `protocol`. No code.
#![tactic(auto)]
