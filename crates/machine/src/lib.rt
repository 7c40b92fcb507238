// The machine, step by step: the cache in lent words, and a program played by its choices.
#![tactic(auto)]

pub mod cache;
pub mod observer;
pub mod player;
pub mod rounds;
pub mod survey;
pub mod tally;
