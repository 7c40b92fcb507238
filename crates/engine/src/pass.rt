ghost use Rattle.std.specs.Prelude.{◌≡◌, ℕ, ◌+◌, ◌-◌, ◌*◌, ◌<◌, ◌≤◌, List, map, length, take, drop, Ok};
ghost use Rattle.cycles.specs.declared.node.Node.TheVariants.{Either, Loop};
ghost use Rattle.cycles.specs.Reading.{Begins, cache as cache_of};
ghost use Rattle.engine.specs.Passing.{CameOf, ForksOn, GoesOn, ReadyFor, TaskOf};
ghost use Rattle.tables.specs.Best.{Both, Table, told};
ghost use Rattle.tables.specs.Showing.{Shows, width as width_of};
ghost use Rattle.tables.specs.Tables.{chose, dedup};

use cycles::geometry::{CACHE_WORDS, Geometry};
use cycles::node::Node;
use machine::rounds::Rounds;
use machine::survey::{look_over, node_at};
use tables::slot::{Firsts, width};
use tables::table::{duplicate, exchange, gather, note_all, spend_all, touch_all};
use trails::Store;

// Where a pass over a program is: the word that is next, and how many entries the table has.
#[derive(Clone, Copy, PartialEq, Eq, Debug)]
pub struct Point {
    pub at: usize,
    pub count: usize,
}

impl Point {
    // At the first word behind the cache's six, with the entry of the empty cache.
    pub const START: Point = Point {
        at: CACHE_WORDS,
        count: 1,
    };

    // At another word.
    fn to(self, at: usize) -> Point
        ensures { result ≡ record { at = at; count = self.count } }
    {
        Point { at, ..self }
    }
}

// Where a pass is between the branches of an either: at the second branch, with the entries from before the either, and how many entries there are
// before those, behind the first branch.
#[derive(Clone, Copy, PartialEq, Eq, Debug)]
pub struct Fork {
    pub second: Point,
    pub first: usize,
}

// What a pass goes over: words that are a cache and a program, from which choice on it records, and the rounds of the loops around.
#[derive(Clone, Copy, PartialEq, Eq, Debug)]
pub struct Pass<'a> {
    pub words: &'a [u32],
    pub cache: Geometry,
    pub firsts: Firsts,
    pub rounds: Rounds,
}

// Runs the program that stands at a point on a table that has room for so many entries; the second of two is gone on to in the loop. None where the room does not suffice.
#[cycle(run_run_branch_run_either_run_first_run_rounds)]
pub fn run(
    pass: Pass<'_>,
    from: Point,
    room: usize,
    slots: &mut [u32],
    store: &mut Store<'_>,
) -> Option<Point>
    requires ready { ReadyFor pass from room 0 slots.old store.old }
    ensures { GoesOn pass.entry from room slots.old slots.new store.old store.new result }
{
    let mut here = from;
    loop {
        match node_at(pass.words, here.at) {
            Node::Work(cycles) => {
                spend_all(slots, pass.cache, here.count, cycles);
                return Some(here.to(here.at + 2));
            }
            Node::Touch { base, steps } => {
                let address = pass.rounds.address(base, steps);
                touch_all(slots, pass.cache, here.count, address);
                return Some(here.to(here.at + 3 + steps.len()));
            }
            Node::Seq => {
                let first = here.to(here.at + 1);
                here = run(pass, first, room, slots, store)?;
            }
            Node::Either => return run_either(pass, here, room, slots, store),
            Node::Loop(count) => return run_rounds(pass, here, count, room, slots, store),
            Node::Skip => return Some(here.to(here.at + 1)),
        }
    }
}

// Notes a choice in the slots behind those that are kept, and runs a branch on them.
#[cycle(run_run_branch_run_either_run_first_run_rounds)]
fn run_branch(
    pass: Pass<'_>,
    from: Point,
    choice: bool,
    keep: usize,
    room: usize,
    slots: &mut [u32],
    store: &mut Store<'_>,
) -> Option<Point>
    requires keeps { keep + from.count ≤ room }
    requires slots { width_of (cache_of pass.cache) * room ≤ length slots.old }
    requires ready { ReadyFor pass from (room - keep) 1 (drop (width_of (cache_of pass.cache) * keep) slots.old) store.old }
    ensures kept { take (width_of (cache_of pass.entry.cache) * keep) slots.new ≡ take (width_of (cache_of pass.entry.cache) * keep) slots.old }
    ensures ran { (k : TaskOf pass.entry from (drop (width_of (cache_of pass.entry.cache) * keep) slots.old) store.old) → CameOf pass.entry k.p (map (chose told choice) k.T) from (room - keep) (drop (width_of (cache_of pass.entry.cache) * keep) slots.new) store.old store.new result }
{
    let part = &mut slots[width(pass.cache) * keep..];
    note_all(part, pass.cache, from.count, store, pass.firsts, choice);
    run(pass, from, room - keep, part, store)
}

// Keeps each state once in the slots behind those that are kept.
fn settle(slots: &mut [u32], cache: Geometry, keep: usize, count: usize) -> usize
    requires { width_of (cache_of cache) * (keep + count) ≤ length slots.old }
    ensures kept { take (width_of (cache_of cache) * keep) slots.new ≡ take (width_of (cache_of cache) * keep) slots.old }
    ensures shows { (a : Both ℕ) (s : List ℕ) (T : Table) → Shows (cache_of cache) a s count (drop (width_of (cache_of cache) * keep) slots.old) T → Shows (cache_of cache) a s result (drop (width_of (cache_of cache) * keep) slots.new) (dedup told.best T) }
    ensures few { result ≤ count }
{
    gather(&mut slots[width(cache) * keep..], cache, 0, 0, count)
}

// Runs the first branch of an either on a copy of the table, each state kept once, and brings what it comes to before the original.
#[cycle(run_run_branch_run_either_run_first_run_rounds)]
fn run_first(
    pass: Pass<'_>,
    from: Point,
    room: usize,
    slots: &mut [u32],
    store: &mut Store<'_>,
) -> Option<Fork>
    requires ready { ReadyFor pass from room 0 slots.old store.old }
    requires either { Begins (drop from.at pass.words.now) (Ok Either) }
    ensures { ForksOn pass.entry from room slots.old slots.new store.old store.new result }
{
    let count = gather(slots, pass.cache, 0, 0, from.count);
    if room - count < count {
        return None;
    }
    duplicate(slots, pass.cache, count);
    let copy = Point {
        at: from.at + 1,
        count,
    };
    let end = run_branch(pass, copy, true, count, room, slots, store)?;
    let first = settle(slots, pass.cache, count, end.count);
    exchange(slots, pass.cache, count, first);
    Some(Fork {
        second: Point { count, ..end },
        first,
    })
}

// Runs the either that stands at a point: both branches from the same table, and what they come to joined.
#[cycle(run_run_branch_run_either_run_first_run_rounds)]
fn run_either(
    pass: Pass<'_>,
    from: Point,
    room: usize,
    slots: &mut [u32],
    store: &mut Store<'_>,
) -> Option<Point>
    requires ready { ReadyFor pass from room 0 slots.old store.old }
    requires either { Begins (drop from.at pass.words.now) (Ok Either) }
    ensures { GoesOn pass.entry from room slots.old slots.new store.old store.new result }
{
    let fork = run_first(pass, from, room, slots, store)?;
    let end = run_branch(pass, fork.second, false, fork.first, room, slots, store)?;
    let count = gather(slots, pass.cache, fork.first, fork.first, end.count);
    Some(Point { count, ..end })
}

// Runs the loop that stands at a point, round by round, unless its body does nothing.
#[cycle(run_run_branch_run_either_run_first_run_rounds)]
fn run_rounds(
    pass: Pass<'_>,
    from: Point,
    count: u32,
    room: usize,
    slots: &mut [u32],
    store: &mut Store<'_>,
) -> Option<Point>
    requires ready { ReadyFor pass from room 0 slots.old store.old }
    requires rounds { Begins (drop from.at pass.words.now) (Ok (Loop count)) }
    ensures { GoesOn pass.entry from room slots.old slots.new store.old store.new result }
{
    let start = from.at + 2;
    let body = look_over(pass.words, start);
    if body.quiet {
        return Some(from.to(body.end));
    }
    let mut here = from;
    for round in 0..count {
        let inside = Pass {
            rounds: pass.rounds.inside(round),
            ..pass
        };
        here = run(inside, here.to(start), room, slots, store)?;
    }
    Some(here.to(body.end))
}
