ghost use Rattle.std.specs.Prelude.{◌≡◌, ◌+◌, ◌*◌, ◌≤◌, min, max, ◌⊎◌};

// One more than the most works and touches that a program may do.
pub(crate) const TOO_MUCH: u64 = 4294967297;

// How much a part of a program does, counted up to TOO_MUCH, and a node at which the count came there.
// It saturates, since a loop of 0 rounds does nothing however large its body is.
#[derive(Clone, Copy)]
pub(crate) struct Load {
    pub(crate) amount: u64,
    pub(crate) place: usize,
    ghost bound: { amount ≤ 4294967297 },
}

impl Load {
    pub(crate) fn of(amount: u8, place: usize) -> Load
        ensures { (result.amount ≡ amount) × (result.place ≡ place) }
    {
        Load {
            amount: u64::from(amount),
            place,
        }
    }

    // One part after the other.
    pub(crate) fn then(self, next: Load) -> Load
        ensures amount { result.amount ≡ min 4294967297 (self.amount + next.amount) }
        ensures place { (result.place ≡ self.place) ⊎ (result.place ≡ next.place) }
    {
        let place = if self.amount < TOO_MUCH {
            next.place
        } else {
            self.place
        };
        Load {
            amount: TOO_MUCH.min(self.amount + next.amount),
            place,
        }
    }

    // The larger of two parts.
    pub(crate) fn or(self, other: Load) -> Load
        ensures amount { result.amount ≡ max self.amount other.amount }
        ensures place { (result.place ≡ self.place) ⊎ (result.place ≡ other.place) }
    {
        if self.amount < other.amount {
            other
        } else {
            self
        }
    }

    // So many rounds of a part, in a loop that stands at a place.
    pub(crate) fn repeated(self, rounds: u32, place: usize) -> Load
        requires few { rounds ≤ 4096 }
        ensures amount { result.amount ≡ min 4294967297 (rounds * self.amount) }
        ensures place { (result.place ≡ self.place) ⊎ (result.place ≡ place) }
    {
        let place = if self.amount < TOO_MUCH {
            place
        } else {
            self.place
        };
        Load {
            amount: TOO_MUCH.min(u64::from(rounds) * self.amount),
            place,
        }
    }
}
