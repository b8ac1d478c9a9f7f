// What a store's words mean: theory only, no functions.

#![tactic(auto)]
