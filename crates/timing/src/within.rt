ghost use Rattle.std.specs.Prelude.{◌≡◌, ◌*◌, ◌≤◌, length, ◌≢◌};
ghost use Rattle.cycles.specs.Code.{P};
ghost use Rattle.cycles.specs.Reading.{cache as cache_of};
ghost use Rattle.cycles.specs.Rows.{Reads};
ghost use Rattle.cycles.specs.Says.{TimedSays};
ghost use Rattle.cycles.specs.declared.Timed.TheVariants.{Few};
ghost use Rattle.tables.specs.Showing.{width as width_of};

use crate::extreme::{best, telling_of};
use crate::retell::{Teller, tell_play};
use cycles::Timed;
use cycles::geometry::Geometry;
use engine::tabulate::tabulate;
use tables::slot::{Extreme, Firsts};
use trails::ChoiceNumber;

// The numbers to record from in the first pass.
const FROM_THE_FIRST: Firsts = Firsts {
    long: ChoiceNumber(0),
    short: ChoiceNumber(0),
};

// Times a program on its cache, with room for so many states in the slots; the choices are written only when all of them are known to fit.
pub(crate) fn time_within(
    words: &[u32],
    cache: Geometry,
    most: u32,
    choices: &mut [u8],
    slots: &mut [u32],
    store: &mut [u32],
) -> Timed
    requires reads { (p : P) × Reads words.now (cache_of cache) p }
    requires fits { width_of (cache_of cache) * most ≤ length slots.old }
    ensures says { TimedSays words.now most choices.old choices.new result }
    ensures enough { result ≢ Few }
{
    let Ok(table) = tabulate(words, FROM_THE_FIRST, most, slots, store) else {
        return Timed::Crowded;
    };
    let long = best(slots, cache, table.entries, Extreme::Longest);
    let short = best(slots, cache, table.entries, Extreme::Shortest);
    let longest = telling_of(slots, cache, long, Extreme::Longest);
    let shortest = telling_of(slots, cache, short, Extreme::Shortest);
    let bytes = choices.len() as u64;
    if longest.count > bytes || shortest.count > bytes - longest.count {
        return Timed::OutFull;
    }
    let middle = longest.count as usize;
    let end = middle + shortest.count as usize;
    let teller = Teller {
        words,
        cache,
        most,
        entry: long,
        extreme: Extreme::Longest,
    };
    tell_play(teller, &mut choices[0..middle], slots, store);
    let teller = Teller {
        entry: short,
        extreme: Extreme::Shortest,
        ..teller
    };
    tell_play(teller, &mut choices[middle..end], slots, store);
    Timed::Times(longest.time, shortest.time, middle, end - middle)
}
