ghost use Rattle.std.specs.Prelude.{◌≡◌};
ghost use Rattle.cycles.specs.Reading.{Begins, parts_of, quiet_of, size_of};

use crate::fault::Rule;
use std::fmt;

// What a program begins with: one node, with what it holds itself.
#[derive(Clone, Copy, PartialEq, Eq, Debug)]
pub enum Node<'a> {
    Work(u32),
    Touch { base: u32, steps: &'a [u32] },
    Seq,
    Either,
    Loop(u32),
    Skip,
}

impl Node<'_> {
    // How many words the node itself takes, without the programs that it holds.
    pub fn size(self) -> usize
        ensures { result ≡ size_of self.entry }
    {
        match self {
            Node::Work(_) | Node::Loop(_) => 2,
            Node::Touch { steps, .. } => 3 + steps.len(),
            Node::Seq | Node::Either | Node::Skip => 1,
        }
    }

    // How many programs the node holds.
    pub fn parts(self) -> usize
        ensures { result ≡ parts_of self.entry }
    {
        match self {
            Node::Seq | Node::Either => 2,
            Node::Loop(_) => 1,
            Node::Work(_) | Node::Touch { .. } | Node::Skip => 0,
        }
    }

    // Whether the node is no work, touch or either, so that it does nothing itself.
    pub fn is_quiet(self) -> bool
        ensures { result ≡ quiet_of self.entry }
    {
        matches!(self, Node::Seq | Node::Loop(_) | Node::Skip)
    }
}

fn write_steps<W: fmt::Write>(f: &mut fmt::Formatter<W>, steps: &[u32]) -> fmt::Result {
    for step in steps {
        write!(f, " step {step}")?;
    }
    Ok(())
}

// The node alone, without the programs that it holds.
impl fmt::Display for Node<'_> {
    fn fmt<W: fmt::Write>(&self, f: &mut fmt::Formatter<W>) -> fmt::Result {
        match *self {
            Node::Work(cycles) => write!(f, "work {cycles}"),
            Node::Touch { base, steps } => {
                write!(f, "touch {base}")?;
                write_steps(f, steps)
            }
            Node::Seq => f.write_str("seq"),
            Node::Either => f.write_str("either"),
            Node::Loop(rounds) => write!(f, "loop {rounds}"),
            Node::Skip => f.write_str("skip"),
        }
    }
}

// The node whose words stand first.
pub fn first_node(words: &[u32]) -> Result<Node<'_>, Rule>
    ensures { Begins words.now result }
{
    match words {
        [] => Err(Rule::NodeMissing),
        [0, cycles, ..] => Ok(Node::Work(*cycles)),
        [0] => Err(Rule::WorkCut),
        [1, base, count, rest @ ..] => {
            let count = *count as usize;
            if count > rest.len() {
                return Err(Rule::TouchCut);
            }
            let steps = &rest[0..count];
            Ok(Node::Touch { base: *base, steps })
        }
        [1, ..] => Err(Rule::TouchCut),
        [2, ..] => Ok(Node::Seq),
        [3, ..] => Ok(Node::Either),
        [4, rounds, ..] => Ok(Node::Loop(*rounds)),
        [4] => Err(Rule::LoopCut),
        [5, ..] => Ok(Node::Skip),
        [tag, ..] => Err(Rule::UnknownNode(*tag)),
    }
}
