// Which page sits in which frame: page entries and use order agree, and every step keeps it so. proofs/ has the laws.
#![tactic(auto)]
