// What each step leaves, read back from the lent bytes: no word of another table changes with it. proofs/ has the laws.
#![tactic(auto)]
