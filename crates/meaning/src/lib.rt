// Definitions and theorems only, in specs/ and proofs/: the rules, derivations, limits, answers, and the three demands.

#![tactic(auto)]
