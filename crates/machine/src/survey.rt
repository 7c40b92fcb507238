ghost use Rattle.std.specs.Prelude.{◌≤◌, length, drop, Ok};
ghost use Rattle.cycles.specs.Reading.{Begins};
ghost use Rattle.machine.specs.Playing.{Stands, Surveyed};

use cycles::node::{Node, first_node};

// The node at a place where a program stands.
pub fn node_at(words: &[u32], at: usize) -> Node<'_>
    requires { Stands words.now at }
    ensures { Begins (drop at words.now) (Ok result) }
{
    first_node(&words[at..]).unwrap()
}

// Where a program ends, and whether it does nothing at all: no work, touch or either.
#[derive(Clone, Copy, PartialEq, Eq, Debug)]
pub struct Survey {
    pub end: usize,
    pub quiet: bool,
}

// Goes over the program that begins at a place, without playing it; it counts the programs that are still to come.
pub fn look_over(words: &[u32], start: usize) -> Survey
    requires { Stands words.now start }
    ensures { Surveyed words.now start result }
{
    let mut at = start;
    let mut quiet = true;
    let mut pending: usize = 1;
    while pending > 0 {
        let node = node_at(words, at);
        at += node.size();
        quiet &= node.is_quiet();
        pending = pending - 1 + node.parts();
    }
    Survey { end: at, quiet }
}
