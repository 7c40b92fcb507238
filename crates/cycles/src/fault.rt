ghost use Rattle.std.specs.Prelude.{◌≡◌, ◌+◌, ◌<◌};

use std::error::Error;
use std::fmt;

// A rule that words break, with the numbers that its message tells.
#[derive(Clone, Copy, PartialEq, Eq, Debug)]
pub enum Rule {
    // there are no words
    Empty,
    // the words end inside the six of the cache
    CacheCut,
    Sets(u32),
    Ways(u32),
    LineWords(u32),
    HitAboveMiss(u32, u32),
    MissCycles(u32),
    PolicyWord(u32),
    // the words end where a node should begin
    NodeMissing,
    // the words end inside a node
    WorkCut,
    TouchCut,
    LoopCut,
    // a word that begins no node
    UnknownNode(u32),
    Cycles(u32),
    Base(u32),
    // more steps than loops around
    Steps(usize, u32),
    Step(u32),
    Rounds(u32),
    // one loop too many around one another
    Loops,
    Depth,
    Amount,
    LeftOver,
}

impl fmt::Display for Rule {
    fn fmt<W: fmt::Write>(&self, f: &mut fmt::Formatter<W>) -> fmt::Result {
        match *self {
            Rule::Empty => f.write_str("no words: a cache takes six, a program one or more"),
            Rule::CacheCut => f.write_str("the words end inside the cache, which takes six"),
            Rule::Sets(n) => write!(f, "{n} sets, where 1 to 64 are allowed"),
            Rule::Ways(n) => write!(f, "{n} ways, where 1 to 8 are allowed"),
            Rule::LineWords(n) => write!(f, "{n} words in a line, where 1 to 64 are allowed"),
            Rule::HitAboveMiss(h, m) => write!(f, "a miss of {m} cycles, below a hit of {h}"),
            Rule::MissCycles(n) => write!(
                f,
                "a miss of {n} cycles, where at most 65535 are allowed"
            ),
            Rule::PolicyWord(n) => write!(f, "policy {n}, which is neither 0 (FIFO) nor 1 (LRU)"),
            Rule::NodeMissing => f.write_str("the words end where a node should begin"),
            Rule::WorkCut => f.write_str("the words end inside this work"),
            Rule::TouchCut => f.write_str("the words end inside this touch"),
            Rule::LoopCut => f.write_str("the words end inside this loop"),
            Rule::UnknownNode(n) => write!(f, "{n} begins no node: a node begins with 0 to 5"),
            Rule::Cycles(n) => write!(f, "work of {n} cycles, where at most 65535 are allowed"),
            Rule::Base(n) => write!(f, "base {n}, where at most 65535 is allowed"),
            Rule::Steps(n, loops) => write!(f, "more steps ({n}) than loops around ({loops})"),
            Rule::Step(n) => write!(f, "step {n}, where at most 65535 is allowed"),
            Rule::Rounds(n) => write!(f, "{n} rounds, where at most 4096 are allowed"),
            Rule::Loops => f.write_str("a ninth loop around, where at most 8 are allowed"),
            Rule::Depth => f.write_str("201 deep, where at most 200 are allowed"),
            Rule::Amount => f.write_str("this makes more than 4294967296 works and touches"),
            Rule::LeftOver => f.write_str("a word left over behind the end of the program"),
        }
    }
}

impl Rule {
    // The fault of the word at a place that breaks the rule.
    pub(crate) fn at(self, place: usize) -> Fault
        ensures { result ≡ record { place = place; rule = self } }
    {
        Fault { place, rule: self }
    }
}

// Which word is wrong, counted from 0, and the rule that it breaks; messages count from 1.
#[derive(Clone, Copy, PartialEq, Eq, Debug)]
pub struct Fault {
    pub place: usize,
    pub rule: Rule,
}

impl Fault {
    // The same fault, its place counted from so many words before.
    pub(crate) fn behind(self, words: usize) -> Fault
        requires { words + self.place < 18446744073709551616 }
        ensures { result ≡ record { place = words + self.place; rule = self.rule } }
    {
        self.rule.at(words + self.place)
    }
}

impl fmt::Display for Fault {
    fn fmt<W: fmt::Write>(&self, f: &mut fmt::Formatter<W>) -> fmt::Result {
        let word = self.place.saturating_add(1);
        write!(f, "word {word}: {}", self.rule)
    }
}

impl Error for Fault {}
