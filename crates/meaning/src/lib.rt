// The meaning of expressions: definitions and theorems alone, in specs/ and proofs/.
#![tactic(auto)]
