// Demand 3, told of the calls that the doors promise: every run of a store stands, and what that says of reads, losses, stored pages, two stores and the incident.
// docs/THEOREMS.md takes a reader through it.
#![tactic(auto)]
