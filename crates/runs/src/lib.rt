// The shortest run of words that has an edit for each line named, and the walk that reads it: definitions and laws, no code.
#![tactic(auto)]
