// A census answers as a plain list of its streams would, over any calls from a fresh one, or from one of before that was united: definitions and theorems
// alone, in specs/ and proofs/.
#![tactic(auto)]
