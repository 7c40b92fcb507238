#![tactic(auto)]

pub mod fault;
pub mod geometry;
mod load;
mod nest;
pub mod node;
pub mod reader;

// Cycles, bases and steps are below it.
pub(crate) const LIMIT: u32 = 65536;

// The longest and the shortest time of a program, and how many choices are told of each; or why not.
#[derive(Clone, Copy, PartialEq, Eq, Debug)]
pub enum Timed {
    Times(u64, u64, usize, usize),
    Crowded,
    OutFull,
    NoProgram,
    Few,
}
