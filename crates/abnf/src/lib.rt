// The rules of a grammar as tests of a whole text: definitions and laws alone (specs/, proofs/).
#![tactic(auto)]
