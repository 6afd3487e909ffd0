// Definitions and theorems only, in specs/ and proofs/: how a grammar is written as an image, how an image is read, and that the two fit together.

#![tactic(auto)]
