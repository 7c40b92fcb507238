// Listings: programs as text, decimal numbers with white space between them, read piece by piece into words.
#![tactic(auto)]

pub mod byte;
pub mod marks;
pub mod text;

pub use byte::ShownByte;
pub use marks::{Full, Marks};
pub use text::{Flaw, Listing, Room};
