// What is told of a play as it goes on: its cycles, how many choices it had, and which, in lent words.
#![tactic(auto)]

pub mod store;
pub mod telling;
pub mod trail;

pub use store::Store;
pub use telling::{ChoiceNumber, Telling};
