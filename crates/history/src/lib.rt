// The history that calls and answers tell, the runs of a store, and that every step keeps what is right between the two.
// specs/ has the history and the runs; proofs/ has the invariant and a chapter a step. Crate theorem says what follows.
#![tactic(auto)]
