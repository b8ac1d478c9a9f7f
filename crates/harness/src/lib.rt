// What trials of the plot index stand on: calls and replies as plain numbers, a plain sorted list to compare with, and printing.

#![tactic(auto)]

pub mod calls; // a call of any operation, and its reply, as plain numbers
pub mod random; // numbers that look random
pub mod report; // counting and printing
pub mod script; // tables of calls and replies
