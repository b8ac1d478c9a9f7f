// The readings of a store that holds a set: theory only, no functions.

#![tactic(auto)]
