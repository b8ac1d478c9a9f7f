// Stores as raw words, for the trials: words read and written at any place, blocks found from the head, two stores compared as trees.

#![tactic(auto)]

pub mod blocks; // where the blocks of a store stand
pub mod twins; // two stores compared as trees
pub mod words; // lent words, read and written at any place
