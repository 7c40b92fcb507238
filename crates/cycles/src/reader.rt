ghost use Rattle.std.specs.Prelude.{◌≤◌, length};
ghost use Rattle.cycles.specs.Reading.{ReadPost, Scans, Stands};

use crate::fault::{Fault, Rule};
use crate::geometry::{CACHE_WORDS, Geometry};
use crate::load::{Load, TOO_MUCH};
use crate::nest::Nest;
use crate::node::{Node, first_node};

// Where the words of a program end, and how much it does.
#[derive(Clone, Copy)]
struct Extent {
    end: usize,
    load: Load,
}

// The node that stands at a place, within the limits.
fn node_at(words: &[u32], at: usize, nest: Nest) -> Result<Node<'_>, Fault>
    requires { at ≤ length words.now }
    ensures { Stands words.now at nest.loops nest.depth result }
{
    let node = first_node(&words[at..]).map_err(|rule| rule.at(at))?;
    nest.check(node).map_err(|fault| fault.behind(at))?;
    Ok(node)
}

// The program that begins at a place; the second of two is gone on to in the loop, so only the depth takes stack.
fn scan(words: &[u32], start: usize, nest: Nest) -> Result<Extent, Fault>
    requires { start ≤ length words.now }
    ensures { Scans words.now nest.loops nest.depth start result }
{
    let mut at = start;
    let mut load = Load::of(0, start);
    loop {
        match node_at(words, at, nest)? {
            Node::Work(_) => {
                let end = at + 2;
                let load = load.then(Load::of(1, at));
                return Ok(Extent { end, load });
            }
            Node::Touch { steps, .. } => {
                let end = at + 3 + steps.len();
                let load = load.then(Load::of(1, at));
                return Ok(Extent { end, load });
            }
            Node::Seq => {
                let first = scan(words, at + 1, nest.deeper())?;
                at = first.end;
                load = load.then(first.load);
            }
            Node::Either => {
                let first = scan(words, at + 1, nest.deeper())?;
                let second = scan(words, first.end, nest.deeper())?;
                let larger = first.load.or(second.load);
                let end = second.end;
                let load = load.then(Load::of(1, at).then(larger));
                return Ok(Extent { end, load });
            }
            Node::Loop(rounds) => {
                let body = scan(words, at + 2, nest.in_loop())?;
                let end = body.end;
                let load = load.then(Load::of(1, at).then(body.load.repeated(rounds, at)));
                return Ok(Extent { end, load });
            }
            Node::Skip => {
                let end = at + 1;
                return Ok(Extent { end, load });
            }
        }
    }
}

// The cache that the words begin with, if behind it stands a program that ends with them; else the first rule that is found broken.
#[tactic(auto, using(crate::proofs::Whole::too_much))]
pub fn read(words: &[u32]) -> Result<Geometry, Fault>
    ensures { ReadPost words.now result }
{
    let geometry = Geometry::read(words)?;
    let program = scan(words, CACHE_WORDS, Nest::OUTERMOST)?;
    if program.end < words.len() {
        return Err(Rule::LeftOver.at(program.end));
    }
    if program.load.amount >= TOO_MUCH {
        return Err(Rule::Amount.at(program.load.place));
    }
    Ok(geometry)
}
