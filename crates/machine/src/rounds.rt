ghost use Rattle.std.specs.Prelude.{◌≡◌, ◌+◌, ◌<◌, ◌≤◌, true, [], ◌∷◌, length};
ghost use Rattle.cycles.specs.Code.{place};
ghost use Rattle.cycles.specs.Rows.{small};
ghost use Rattle.machine.specs.Around.{around, below};

// The address of a word of memory. The number of its line fits a word with one more.
#[derive(Clone, Copy, PartialEq, Eq, Debug)]
pub struct Address {
    pub word: u32,
    ghost low: { word < 4294967295 },
}

// The rounds that the loops around are in, the innermost first.
#[derive(Clone, Copy, PartialEq, Eq, Debug)]
pub struct Rounds {
    at: [u32; 8],
    depth: usize,
    ghost deep: { depth ≤ 8 },
    ghost low: { below 4096 at ≡ true },
}

impl Rounds {
    // Around no loop.
    pub fn none() -> Rounds
        ensures { (around result.at result.depth ≡ []) × (result.depth ≡ 0) }
    {
        Rounds {
            at: [0; 8],
            depth: 0,
        }
    }

    // Inside one loop more, in one of its rounds.
    pub fn inside(self, round: u32) -> Rounds
        requires nested { self.depth < 8 }
        requires few { round < 4096 }
        ensures around { around result.at result.depth ≡ round ∷ around self.at self.depth }
        ensures deeper { result.depth ≡ self.depth + 1 }
    {
        let mut at = self.at;
        at.rotate_right(1);
        at[0] = round;
        Rounds {
            at,
            depth: self.depth + 1,
        }
    }

    // The address that a touch is of in these rounds.
    pub fn address(self, base: u32, steps: &[u32]) -> Address
        requires based { base < 65536 }
        requires stepped { small steps.now ≡ true }
        requires few { length steps.now ≤ self.depth }
        ensures value { result.word ≡ place base steps.now (around self.at self.depth) }
        ensures bound { result.word ≤ 2146992135 }
    {
        let mut word = base;
        for (step, round) in steps.iter().zip(&self.at) {
            word += step * round;
        }
        Address { word }
    }
}
