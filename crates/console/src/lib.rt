// What the programs share: reading a command line and a listing, showing and playing a program, and saying what is wrong.
#![tactic(auto)]

pub mod arguments;
pub mod choices;
pub mod failure;
mod input;
pub mod outline;
pub mod replay;
pub mod source;
pub mod trace;

pub use choices::ChoiceText;
pub use failure::{Failure, ended};
pub use source::{Program, Room, Source};
