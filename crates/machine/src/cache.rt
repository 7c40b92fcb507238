ghost use Rattle.std.specs.Prelude.{◌≡◌, ◌*◌, ◌<◌, ◌≤◌, ◌∷◌, ◌||◌, ◌==◌, length, take, drop, replicate, position};
ghost use Rattle.cycles.specs.Code.{Cache, after, cost, empty, line_of, pick, set_of};
ghost use Rattle.cycles.specs.Reading.{cache as cache_of, is_lru};
ghost use Rattle.machine.specs.Cells.{Tidy, TidyCells, is_hit, lines_of, outcome_in, outcome_of, state_of, touched_set};
ghost use Rattle.machine.specs.Standings.{Stood};

use crate::rounds::Address;
use cycles::geometry::{Geometry, Policy};

// What a touch did to its set.
#[derive(Clone, Copy, PartialEq, Eq, Debug)]
pub enum Outcome {
    Hit,
    // the line came in, and evicted another if every way was taken
    Miss { evicted: Option<u32> },
}

// What a touch did.
#[derive(Clone, Copy, PartialEq, Eq, Debug)]
pub struct Touched {
    pub line: u32,
    pub set: u32,
    pub cycles: u32,
    pub outcome: Outcome,
}

// Where a line stands in its set.
#[derive(Clone, Copy, PartialEq, Eq, Debug)]
enum Standing {
    // in this way
    Held(usize),
    // nowhere, and a way is empty
    Free,
    // nowhere, and every way holds another line
    Full,
}

// The first way that holds the cell, or nothing.
fn way_with(ways: &[u32], cell: u32) -> Option<usize>
    ensures { result ≡ position (λ w. w == cell || w == 0) ways.now }
{
    ways.iter().position(|way| *way == cell || *way == 0)
}

// Where the line stands; the ways behind an empty one hold nothing.
fn standing_of(ways: &[u32], line: u32) -> Standing
    requires { line < 4294967295 }
    ensures { Stood ways.now line result }
{
    let cell = line + 1;
    match way_with(ways, cell) {
        None => Standing::Full,
        Some(place) if ways[place] == cell => Standing::Held(place),
        Some(_) => Standing::Free,
    }
}

// Writes a cell in front of the others, and the last goes.
fn push_front(ways: &mut [u32], cell: u32)
    requires { 0 < length ways.old }
    ensures { ways.new ≡ take (length ways.old) (cell ∷ ways.old) }
{
    ways.rotate_right(1);
    ways[0] = cell;
}

// Touches a line in the ways of its set; one that comes in moves every way on, so that what stands behind an empty way never comes to count.
fn touch_set(ways: &mut [u32], line: u32, policy: Policy) -> Outcome
    requires some { 0 < length ways.old }
    requires fits { line < 4294967295 }
    ensures after { lines_of ways.new ≡ touched_set (length ways.old) (is_lru policy) line (lines_of ways.old) }
    ensures outcome { result ≡ outcome_in (length ways.old) line (lines_of ways.old) }
    ensures tidy { Tidy ways.old → Tidy ways.new }
{
    match standing_of(ways, line) {
        Standing::Held(place) => {
            if let Policy::Lru = policy {
                push_front(&mut ways[..=place], line + 1);
            }
            Outcome::Hit
        }
        Standing::Free => {
            push_front(ways, line + 1);
            Outcome::Miss { evicted: None }
        }
        Standing::Full => {
            let last = ways[ways.len() - 1] - 1;
            push_front(ways, line + 1);
            Outcome::Miss {
                evicted: Some(last),
            }
        }
    }
}

// Touches an address in the cells of a cache.
pub fn touch(cells: &mut [u32], cache: Geometry, address: Address) -> Touched
    requires { cache.sets * cache.ways ≤ length cells.old }
    ensures after { state_of (cache_of cache) cells.new ≡ after (cache_of cache) (state_of (cache_of cache) cells.old) address.word }
    ensures outcome { result.outcome ≡ outcome_of (cache_of cache) (state_of (cache_of cache) cells.old) address.word }
    ensures cycles { result.cycles ≡ cost (cache_of cache) (state_of (cache_of cache) cells.old) address.word }
    ensures line { result.line ≡ line_of (cache_of cache) address.word }
    ensures set { result.set ≡ set_of (cache_of cache) address.word }
    ensures tidy { TidyCells (cache_of cache) cells.old → TidyCells (cache_of cache) cells.new }
    ensures behind { drop (cache.sets * cache.ways) cells.new ≡ drop (cache.sets * cache.ways) cells.old }
{
    let line = address.word / cache.line;
    let set = line % cache.sets;
    let ways = cache.ways as usize;
    let from = set as usize * ways;
    let outcome = touch_set(&mut cells[from..from + ways], line, cache.policy);
    Touched {
        line,
        set,
        cycles: cycles(cache, outcome),
        outcome,
    }
}

// Empties every way.
pub fn clear(cells: &mut [u32])
    ensures zeros { cells.new ≡ replicate (length cells.old) 0 }
    ensures empty { (c : Cache) → c.sets * c.ways ≤ length cells.old → state_of c cells.new ≡ empty c }
    ensures tidy { (c : Cache) → TidyCells c cells.new }
{
    cells.fill(0);
}

// The cycles of a hit or of a miss.
fn cycles(cache: Geometry, outcome: Outcome) -> u32
    ensures { result ≡ pick (is_hit outcome) (cache_of cache).hit (cache_of cache).miss }
{
    match outcome {
        Outcome::Hit => cache.hit,
        Outcome::Miss { .. } => cache.miss,
    }
}
