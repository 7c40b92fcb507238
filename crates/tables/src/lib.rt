// Tables of the states of a cache, each with its longest and its shortest time and the choices that take them, in lent words.
#![tactic(auto)]

pub mod slot;
pub mod table;
