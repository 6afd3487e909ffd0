// Definitions only, in specs/: the kinds of expression, a grammar, and what makes one sound.

#![tactic(auto)]
