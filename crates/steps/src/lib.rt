// The steps that change the tables and the online rows alone: begin, evict, abort. Each promises its step of the rules on all
// the lent areas; the tables have been found sound.
#![tactic(auto)]

pub mod abort;
pub mod begin;
pub mod evict;
