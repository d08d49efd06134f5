// Theory: a journal that was written brings back the pages it was written for. specs/Trip.antt says what that means,
// proofs/Trip.antt proves it of the two calls' definitions. No code.
#![tactic(auto)]
