ghost use Rattle.std.specs.Prelude.{◌≡◌, ℕ, ◌+◌, ◌<◌, ◌≤◌, MatchResult, nat_le, position};

use crate::LIMIT;
use crate::fault::{Fault, Rule};
use crate::node::Node;

const MOST_ROUNDS: u32 = 4096;

const MOST_LOOPS: u32 = 8;

const MOST_DEEP: u32 = 200;

// The index of the first step that is too large.
fn large_step(steps: &[u32]) -> Option<usize>
    ensures { result ≡ position (λ s. nat_le 65536 s) steps.now }
{
    steps.iter().position(|step| *step >= LIMIT)
}

// Where a program stands: under so many loops, and so deep in twos, eithers and loops.
#[derive(Clone, Copy)]
pub(crate) struct Nest {
    loops: u32,
    depth: u32,
    ghost shallow: { depth ≤ 200 },
}

impl Nest {
    ghost use Rattle.cycles.specs.declared.fault.Rule.TheVariants.{Depth};
    ghost use Rattle.cycles.specs.declared.node.Node.TheVariants.{Touch};
    ghost use Rattle.cycles.specs.Reading.{Judges};

    // In nothing.
    pub(crate) const OUTERMOST: Nest = Nest { loops: 0, depth: 0 };

    // In one node more, which is no loop.
    pub(crate) fn deeper(self) -> Nest
        requires { self.depth < 200 }
        ensures { (result.loops ≡ self.loops) × (result.depth ≡ self.depth + 1) }
    {
        Nest {
            loops: self.loops,
            depth: self.depth + 1,
        }
    }

    // In one loop more.
    pub(crate) fn in_loop(self) -> Nest
        requires shallow { self.depth < 200 }
        requires few { self.loops < 8 }
        ensures { (result.loops ≡ self.loops + 1) × (result.depth ≡ self.depth + 1) }
    {
        Nest {
            loops: self.loops + 1,
            depth: self.depth + 1,
        }
    }

    // Whether a node that stands here keeps the limits; a fault's place is counted from the node's first word.
    pub(crate) fn check(self, node: Node<'_>) -> Result<(), Fault>
        ensures { Judges self.loops self.depth node.entry result }
    {
        match node {
            Node::Work(cycles) if cycles >= LIMIT => Err(Rule::Cycles(cycles).at(1)),
            Node::Work(_) | Node::Skip => Ok(()),
            Node::Touch { base, steps } => self.check_touch(base, steps),
            Node::Seq | Node::Either => self.check_depth(),
            Node::Loop(rounds) if rounds > MOST_ROUNDS => Err(Rule::Rounds(rounds).at(1)),
            Node::Loop(_) if self.loops >= MOST_LOOPS => Err(Rule::Loops.at(0)),
            Node::Loop(_) => self.check_depth(),
        }
    }

    fn check_touch(self, base: u32, steps: &[u32]) -> Result<(), Fault>
        ensures { (depth : ℕ) → Judges self.loops depth (Touch base steps.entry) result }
    {
        if base >= LIMIT {
            return Err(Rule::Base(base).at(1));
        }
        if steps.len() > self.loops as usize {
            return Err(Rule::Steps(steps.len(), self.loops).at(2));
        }
        match large_step(steps) {
            Some(i) => Err(Rule::Step(steps[i]).at(3 + i)),
            None => Ok(()),
        }
    }

    // Whether a node that holds others may stand here.
    fn check_depth(self) -> Result<(), Fault>
        ensures { MatchResult result (λ _. self.depth < 200) (λ f. (200 ≤ self.depth) × (f.place ≡ 0) × (f.rule ≡ Depth)) }
    {
        if self.depth >= MOST_DEEP {
            return Err(Rule::Depth.at(0));
        }
        Ok(())
    }
}
