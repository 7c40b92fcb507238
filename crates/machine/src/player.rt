ghost use Rattle.std.specs.Prelude.{◌≡◌, ◌+◌, ◌*◌, ◌<◌, ◌≤◌, length, drop, Ok};
ghost use Rattle.cycles.specs.declared.node.Node.TheVariants.{Either, Loop};
ghost use Rattle.cycles.specs.Reading.{Begins, cache as cache_of};
ghost use Rattle.machine.specs.Around.{around};
ghost use Rattle.machine.specs.declared.player.PlayError.TheVariants.{NoProgram};
ghost use Rattle.machine.specs.Playing.{Observed, PlayPost, Plays, Ready};

use crate::cache::{clear, touch};
use crate::observer::{Access, Observer};
use crate::rounds::{Address, Rounds};
use crate::survey::{look_over, node_at};
use cycles::fault::Fault;
use cycles::geometry::{CACHE_WORDS, Geometry};
use cycles::node::Node;
use cycles::reader::read;
use std::error::Error;
use std::fmt;

// Where a play is: the word that is next, the cycles so far, and the choices used.
#[derive(Clone, Copy, PartialEq, Eq, Debug)]
pub struct Place {
    pub at: usize,
    pub time: u64,
    pub used: usize,
}

impl Place {
    // At the first word behind the cache's six.
    const START: Place = Place {
        at: CACHE_WORDS,
        time: 0,
        used: 0,
    };

    // So many words and cycles further.
    fn past(self, words: usize, cycles: u32) -> Place
        requires at { self.at + words < 18446744073709551616 }
        requires time { self.time + cycles < 18446744073709551616 }
        ensures { result ≡ record { at = self.at + words; time = self.time + cycles; used = self.used } }
    {
        Place {
            at: self.at + words,
            time: self.time + u64::from(cycles),
            ..self
        }
    }

    // At another word.
    fn to(self, at: usize) -> Place
        ensures { result ≡ record { at = at; time = self.time; used = self.used } }
    {
        Place { at, ..self }
    }
}

// How far a play came: its cycles, and how many choices it used.
#[derive(Clone, Copy, PartialEq, Eq, Debug)]
pub struct Played {
    pub cycles: u64,
    pub choices: usize,
}

// Why there is no whole play.
#[derive(Clone, Copy, PartialEq, Eq, Debug)]
pub enum PlayError {
    NoProgram(Fault),
    // fewer words were lent than the cache has ways
    FewCells,
    // the choices ended before the program
    RanOut,
    // the program ended before its choices
    LeftOver(Played),
}

impl From<Fault> for PlayError {
    ghost from_gives = { λ f e. e ≡ NoProgram f };

    fn from(fault: Fault) -> PlayError {
        PlayError::NoProgram(fault)
    }
}

impl fmt::Display for PlayError {
    fn fmt<W: fmt::Write>(&self, f: &mut fmt::Formatter<W>) -> fmt::Result {
        match *self {
            PlayError::NoProgram(fault) => write!(f, "{fault}"),
            PlayError::FewCells => f.write_str("fewer words than the cache has ways"),
            PlayError::RanOut => f.write_str(
                "too few choices: all are used, and an either is come to",
            ),
            PlayError::LeftOver(played) => write!(f, "choices left over: {} used", played.choices),
        }
    }
}

impl Error for PlayError {}

// What a play is of: words that are a cache and a program, and choices.
#[derive(Clone, Copy)]
struct Game<'a> {
    words: &'a [u32],
    choices: &'a [bool],
    cache: Geometry,
}

// Touches an address and tells it; gives its cycles.
fn observe_touch<O: Observer>(
    cache: Geometry,
    start: u64,
    address: Address,
    cells: &mut [u32],
    observer: &mut O,
) -> u32
    requires { cache.sets * cache.ways ≤ length cells.old }
    ensures { Observed (cache_of cache) address.word start cells.old cells.new (O.told observer.old) (O.told observer.new) result }
{
    let touched = touch(cells, cache, address);
    observer.touch(Access {
        start,
        address: address.word,
        touched,
    });
    touched.cycles
}

// Plays the program that stands at a place; the second of two is gone on to in the loop. None where the choices run out.
#[cycle(go_go_either_go_rounds)]
fn go<O: Observer>(
    game: Game<'_>,
    from: Place,
    rounds: Rounds,
    cells: &mut [u32],
    observer: &mut O,
) -> Option<Place>
    requires { Ready game rounds.depth from cells.old }
    ensures { Plays game.entry rounds from cells.old cells.new (O.told observer.old) (O.told observer.new) result }
{
    let mut here = from;
    loop {
        match node_at(game.words, here.at) {
            Node::Work(cycles) => {
                observer.work(here.time, cycles);
                return Some(here.past(2, cycles));
            }
            Node::Touch { base, steps } => {
                let address = rounds.address(base, steps);
                let cycles = observe_touch(game.cache, here.time, address, cells, observer);
                return Some(here.past(3 + steps.len(), cycles));
            }
            Node::Seq => {
                let first = here.to(here.at + 1);
                here = go(game, first, rounds, cells, observer)?;
            }
            Node::Either => return go_either(game, here, rounds, cells, observer),
            Node::Loop(count) => return go_rounds(game, here, count, rounds, cells, observer),
            Node::Skip => return Some(here.to(here.at + 1)),
        }
    }
}

// Plays the either that stands at a place, by the next choice.
#[cycle(go_go_either_go_rounds)]
fn go_either<O: Observer>(
    game: Game<'_>,
    from: Place,
    rounds: Rounds,
    cells: &mut [u32],
    observer: &mut O,
) -> Option<Place>
    requires ready { Ready game rounds.depth from cells.old }
    requires either { Begins (drop from.at game.words.now) (Ok Either) }
    ensures { Plays game.entry rounds from cells.old cells.new (O.told observer.old) (O.told observer.new) result }
{
    let choices = game.choices;
    let number = from.used;
    if number >= choices.len() {
        return None;
    }
    let first = Place {
        at: from.at + 1,
        time: from.time,
        used: number + 1,
    };
    let skipped = look_over(game.words, first.at);
    if !choices[number] {
        let second = first.to(skipped.end);
        return go(game, second, rounds, cells, observer);
    }
    let end = go(game, first, rounds, cells, observer)?;
    let behind = look_over(game.words, end.at);
    Some(end.to(behind.end))
}

// Plays the loop that stands at a place, round by round, unless its body does nothing.
#[cycle(go_go_either_go_rounds)]
fn go_rounds<O: Observer>(
    game: Game<'_>,
    from: Place,
    count: u32,
    rounds: Rounds,
    cells: &mut [u32],
    observer: &mut O,
) -> Option<Place>
    requires ready { Ready game rounds.depth from cells.old }
    requires rounds { Begins (drop from.at game.words.now) (Ok (Loop count)) }
    ensures { Plays game.entry rounds from cells.old cells.new (O.told observer.old) (O.told observer.new) result }
{
    let start = from.at + 2;
    let body = look_over(game.words, start);
    if body.quiet {
        return Some(from.to(body.end));
    }
    let mut here = from;
    for round in 0..count {
        here = go(game, here.to(start), rounds.inside(round), cells, observer)?;
    }
    Some(here.to(body.end))
}

// Plays a program by choices, from an empty cache in lent words, and tells an observer each work and touch.
pub fn play<O: Observer>(
    words: &[u32],
    choices: &[bool],
    cells: &mut [u32],
    observer: &mut O,
) -> Result<Played, PlayError>
    ensures { PlayPost words.now choices.now (length cells.old) (O.told observer.old) (O.told observer.new) result }
{
    let cache = read(words)?;
    if cells.len() < cache.cells() {
        return Err(PlayError::FewCells);
    }
    clear(cells);
    let game = Game {
        words,
        choices,
        cache,
    };
    let end = go(game, Place::START, Rounds::none(), cells, observer).ok_or(PlayError::RanOut)?;
    let played = Played {
        cycles: end.time,
        choices: end.used,
    };
    if played.choices < choices.len() {
        return Err(PlayError::LeftOver(played));
    }
    Ok(played)
}
