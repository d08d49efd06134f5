// What records do to a page: changes that share no byte commute, so that the order made and the order committed show the same page. proofs/ has the theory, a chapter a file.
#![tactic(auto)]
