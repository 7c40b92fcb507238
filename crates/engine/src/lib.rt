// All states behind a program at once: the recursion over a program's words that takes a table to the next.
#![tactic(auto)]

pub mod pass;
pub mod tabulate;
