ghost use Rattle.std.specs.Prelude.{◌≡◌, ℕ, ◌+◌, ◌*◌, ◌<◌, ◌≤◌, true, length};
ghost use Rattle.cycles.specs.Reading.{cache as cache_of};
ghost use Rattle.tables.specs.Showing.{as_good, width as width_of};
ghost use Rattle.timing.specs.Retelling.{offset as offset_of, told_at};

use cycles::geometry::Geometry;
use tables::slot::{Extreme, TELLING, telling_at, width};
use tables::table::StateIndex;
use trails::Telling;

// Where the telling of an extreme stands in a slot.
fn offset(cache: Geometry, extreme: Extreme) -> usize
    ensures { result ≡ offset_of (cache_of cache) extreme }
{
    match extreme {
        Extreme::Longest => cache.cells(),
        Extreme::Shortest => cache.cells() + TELLING,
    }
}

// What an entry of a table tells of its longest or of its shortest time.
pub fn telling_of(slots: &[u32], cache: Geometry, entry: StateIndex, extreme: Extreme) -> Telling
    requires { width_of (cache_of cache) * entry.0 + width_of (cache_of cache) ≤ length slots.now }
    ensures { result ≡ told_at (cache_of cache) extreme entry.0 slots.now }
{
    telling_at(slots, width(cache) * entry.0 + offset(cache, extreme))
}

// The first entry that no other of the table is better than.
pub fn best(slots: &[u32], cache: Geometry, count: usize, extreme: Extreme) -> StateIndex
    requires some { 0 < count }
    requires fits { width_of (cache_of cache) * count ≤ length slots.now }
    ensures within { result.0 < count }
    ensures best { (k : ℕ) → k < count → as_good extreme (told_at (cache_of cache) extreme result.0 slots.now) (told_at (cache_of cache) extreme k slots.now) ≡ true }
{
    let mut best = 0;
    for k in 1..count {
        let champion = telling_of(slots, cache, StateIndex(best), extreme);
        let rival = telling_of(slots, cache, StateIndex(k), extreme);
        if !extreme.is_as_good(champion, rival) {
            best = k;
        }
    }
    StateIndex(best)
}
