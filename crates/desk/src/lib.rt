// What the service desk reads: a log written from a store is judged valid to its last frame, and each page found in it is the
// starting page with all committed updates. Theory only; docs/THEOREMS.md takes a reader through it.
#![tactic(auto)]
