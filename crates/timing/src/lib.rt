#![tactic(auto)]

ghost use Rattle.std.specs.Prelude.{◌≡◌, ◌+◌, ◌*◌, ◌<◌, length, nat_lt};
ghost use Rattle.cycles.specs.Says.{TimedPost};

use cycles::Timed;
use cycles::reader::read;
use tables::slot::width;

pub mod extreme;
pub mod retell;
mod within;

use within::time_within;

// Whether so many lent words are too few for a program of so many words and so many states.
fn is_few(words: usize, most: u32, lent: usize) -> bool
    ensures { result ≡ nat_lt lent (4096 + (8 * words + 2048 * (most + 1))) }
{
    (lent as u128) < 4096 + (8 * words as u128 + 2048 * (u128::from(most) + 1))
}

// The longest and the shortest time of a program from the empty cache, with choices that take them, or why they are not told.
pub fn times(words: &[u32], most: u32, choices: &mut [u8], work: &mut [u32]) -> Timed
    ensures { TimedPost words.now most (length work.old) choices.old choices.new result }
{
    if is_few(words.len(), most, work.len()) {
        return Timed::Few;
    }
    let Ok(cache) = read(words) else {
        return Timed::NoProgram;
    };
    let (slots, store) = work.split_at_mut(width(cache) * most as usize);
    time_within(words, cache, most, choices, slots, store)
}
