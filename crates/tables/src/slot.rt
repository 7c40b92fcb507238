ghost use Rattle.std.specs.Prelude.{◌≡◌, ℕ, ◌+◌, ◌*◌, ◌<◌, ◌≤◌, List, [], ◌∷◌, length, take, drop};
ghost use Rattle.cycles.specs.Reading.{cache as cache_of};
ghost use Rattle.tables.specs.Best.{Both, Val, plus, start, told};
ghost use Rattle.tables.specs.Showing.{Matches, Notable, Put, Retold, Shown, as_good, better_of, cells as cells_of, firsts_of, later, width as width_of};
ghost use Rattle.tables.specs.Tables.{Entry, chose, touched};
ghost use Rattle.trails.specs.Stores.{Grown, nodes};
ghost use Rattle.trails.specs.Trails.{telling_of};

use cycles::geometry::Geometry;
use machine::cache::{clear, touch};
use machine::rounds::Address;
use trails::telling::{halves, joined};
use trails::{ChoiceNumber, Store, Telling};

// The words of a telling.
pub const TELLING: usize = 7;

// Which time is sought.
#[derive(Clone, Copy, PartialEq, Eq, Debug)]
pub enum Extreme {
    Longest,
    Shortest,
}

impl Extreme {
    // Whether a telling is at least as good as another; of two with the same time the one with fewer choices is the better.
    pub fn is_as_good(self, telling: Telling, other: Telling) -> bool
        ensures { result ≡ as_good self telling other }
    {
        match self {
            Extreme::Longest => (other.time, telling.count) <= (telling.time, other.count),
            Extreme::Shortest => (telling.time, telling.count) <= (other.time, other.count),
        }
    }
}

// The first choices that are recorded: in the tellings of the longest times, and of the shortest.
#[derive(Clone, Copy, PartialEq, Eq, Debug)]
pub struct Firsts {
    pub long: ChoiceNumber,
    pub short: ChoiceNumber,
}

// How many words a slot takes: the cells, and the tellings of a longest and of a shortest time.
pub fn width(cache: Geometry) -> usize
    ensures { result ≡ width_of (cache_of cache) }
{
    cache.cells() + 2 * TELLING
}

// Adds cycles to the time of the telling at a place, which is its first two words.
fn add_cycles(slot: &mut [u32], at: usize, cycles: u32)
    requires fits { at + 7 ≤ length slot.old }
    requires room { (telling_of (drop at slot.old)).time + cycles < 18446744073709551616 }
    ensures { Put at slot.old slot.new (later cycles (telling_of (drop at slot.old))) }
{
    let time = joined(slot[at], slot[at + 1]) + u64::from(cycles);
    (slot[at], slot[at + 1]) = halves(time);
}

// Writes a telling at a place.
fn put_telling(slot: &mut [u32], at: usize, telling: Telling)
    requires { at + 7 ≤ length slot.old }
    ensures { Put at slot.old slot.new telling }
{
    telling.write(&mut slot[at..at + TELLING]);
}

// The telling at a place.
pub fn telling_at(slot: &[u32], at: usize) -> Telling
    requires { at + 7 ≤ length slot.now }
    ensures { result ≡ telling_of (drop at slot.now) }
{
    Telling::read(&slot[at..])
}

// Keeps the better of the telling at a place and another.
fn keep_better(slot: &mut [u32], at: usize, extreme: Extreme, telling: Telling)
    requires { at + 7 ≤ length slot.old }
    ensures { Put at slot.old slot.new (better_of extreme (telling_of (drop at slot.old)) telling) }
{
    if !extreme.is_as_good(telling_at(slot, at), telling) {
        put_telling(slot, at, telling);
    }
}

// Notes a choice in the telling at a place.
fn note_at(slot: &mut [u32], at: usize, store: &mut Store<'_>, first: ChoiceNumber, choice: bool)
    requires fits { at + 7 ≤ length slot.old }
    requires notable { Notable first.0 (nodes store.old) (telling_of (drop at slot.old)) }
    ensures put { Put at slot.old slot.new (telling_of (drop at slot.new)) }
    ensures grown { Grown store.old store.new }
    ensures matches { (v : Val) → Matches first.0 (nodes store.old) (telling_of (drop at slot.old)) v → Matches first.0 (nodes store.new) (telling_of (drop at slot.new)) (plus v 0 (choice ∷ [])) }
{
    let mut telling = telling_at(slot, at);
    telling.note(store, first, choice);
    put_telling(slot, at, telling);
}

// Writes where every play begins: the empty cache, and tellings of no cycles and no choice.
pub fn begin(slot: &mut [u32], cache: Geometry)
    requires { width_of (cache_of cache) ≤ length slot.old }
    ensures { (a : Both ℕ) (s : List ℕ) → Shown (cache_of cache) a s slot.new (start (cache_of cache)) }
{
    clear(slot);
}

// Spends cycles in both tellings of a slot of so many cells.
pub fn spend(slot: &mut [u32], cells: usize, cycles: u32)
    requires fits { cells + 14 ≤ length slot.old }
    requires long { (telling_of (drop cells slot.old)).time + cycles < 18446744073709551616 }
    requires short { (telling_of (drop (cells + 7) slot.old)).time + cycles < 18446744073709551616 }
    ensures { Retold cells slot.old slot.new (later cycles (telling_of (drop cells slot.old))) (later cycles (telling_of (drop (cells + 7) slot.old))) }
{
    add_cycles(slot, cells, cycles);
    add_cycles(slot, cells + TELLING, cycles);
}

// Keeps the better of each telling of a slot and another.
pub fn improve(slot: &mut [u32], cells: usize, long: Telling, short: Telling)
    requires { cells + 14 ≤ length slot.old }
    ensures { Retold cells slot.old slot.new (better_of Extreme.Longest (telling_of (drop cells slot.old)) long) (better_of Extreme.Shortest (telling_of (drop (cells + 7) slot.old)) short) }
{
    keep_better(slot, cells, Extreme::Longest, long);
    keep_better(slot, cells + TELLING, Extreme::Shortest, short);
}

// Touches an address in the state of a slot, and spends its cycles.
pub fn touch_slot(slot: &mut [u32], cache: Geometry, address: Address)
    requires fits { width_of (cache_of cache) ≤ length slot.old }
    requires long { (telling_of (drop (cells_of (cache_of cache)) slot.old)).time + 65535 < 18446744073709551616 }
    requires short { (telling_of (drop (cells_of (cache_of cache) + 7) slot.old)).time + 65535 < 18446744073709551616 }
    ensures { (a : Both ℕ) (s : List ℕ) (e : Entry (Both Val)) → Shown (cache_of cache) a s slot.old e → Shown (cache_of cache) a s slot.new (touched told (cache_of cache) address.word e) }
{
    let touched = touch(slot, cache, address);
    spend(slot, cache.cells(), touched.cycles);
}

// Notes a choice in both tellings of a slot.
pub fn note_slot(
    slot: &mut [u32],
    cache: Geometry,
    store: &mut Store<'_>,
    firsts: Firsts,
    choice: bool,
)
    requires fits { width_of (cache_of cache) ≤ length slot.old }
    requires long { Notable firsts.long.0 (nodes store.old) (telling_of (drop (cells_of (cache_of cache)) slot.old)) }
    requires short { Notable firsts.short.0 (nodes store.old) (telling_of (drop (cells_of (cache_of cache) + 7) slot.old)) }
    ensures grown { Grown store.old store.new }
    ensures shows { (e : Entry (Both Val)) → Shown (cache_of cache) (firsts_of firsts) (nodes store.old) slot.old e → Shown (cache_of cache) (firsts_of firsts) (nodes store.new) slot.new (chose told choice e) }
{
    let cells = cache.cells();
    note_at(slot, cells, store, firsts.long, choice);
    note_at(slot, cells + TELLING, store, firsts.short, choice);
}
