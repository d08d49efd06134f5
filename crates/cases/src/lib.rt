// Document 01's cases, P1 to P12, as one list of calls with the answers, counts, bytes and tables that 01 gives for them:
// specs/ has the list and its one proved statement.
#![tactic(auto)]
