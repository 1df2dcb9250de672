// What each value means: definitions and theorems alone (specs/, proofs/).
#![tactic(auto)]
