ghost use Rattle.std.specs.Prelude.{◌≡◌};
ghost use Rattle.machine.specs.Counts.{Counted};

use crate::cache::Outcome;
use crate::observer::{Access, Observer};

// Counts what a play does, each count up to the largest u64.
#[derive(Clone, Copy, Default, PartialEq, Eq, Debug)]
pub struct Tally {
    pub hits: u64,
    pub misses: u64,
    // cycles of work
    pub work: u64,
}

impl Tally {
    pub fn new() -> Tally
        ensures { (result.hits ≡ 0) × (result.misses ≡ 0) × (result.work ≡ 0) }
    {
        Tally::default()
    }
}

impl Observer for Tally {
    ghost told = { Counted };

    fn work(&mut self, _start: u64, cycles: u32) {
        self.work = self.work.saturating_add(u64::from(cycles));
    }

    fn touch(&mut self, access: Access) {
        match access.touched.outcome {
            Outcome::Hit => self.hits = self.hits.saturating_add(1),
            Outcome::Miss { .. } => self.misses = self.misses.saturating_add(1),
        }
    }
}
