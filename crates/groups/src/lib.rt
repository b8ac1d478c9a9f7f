// Groups of trials on sound stores: random sets against a plain sorted list, and orders of entry.

#![tactic(auto)]

pub mod orders; // group 3
pub mod sets; // group 2
