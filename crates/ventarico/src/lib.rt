// The door: the calls of document 01 as the C firmware makes them, over numbers and byte slices. Each asks nothing of its
// caller, checks, judges, and only then acts; its promise gives the answer and every lent byte afterwards. Beside it, the
// clerk alone, over a struct that the caller lends.
#![tactic(auto)]

mod answer;
pub mod clerk_call;
pub mod door;
