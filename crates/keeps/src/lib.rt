// Sound tables stay sound: an accepted call on any sound tables leaves sound tables, by whatever way they came about. proofs/ has the laws.
#![tactic(auto)]
