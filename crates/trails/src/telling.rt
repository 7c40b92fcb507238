ghost use Rattle.std.specs.Prelude.{◌≡◌, ℕ, ◌+◌, ◌*◌, ◌/◌, ◌%◌, ◌≤◌, List, [], length};
ghost use Rattle.trails.specs.Trails.{Sound, Tells, none, telling_of, telling_words};

// How many numbers a word can be.
const WORD: u64 = 1 << 32;

// The number of a choice in a play, from 0.
#[derive(Clone, Copy, PartialEq, Eq, Debug)]
pub struct ChoiceNumber(pub u64);

// What is told of a play so far.
#[derive(Clone, Copy, PartialEq, Eq, Debug, Default)]
pub struct Telling {
    // its cycles
    pub time: u64,
    // how many choices it had
    pub count: u64,
    // where the last node is, which has the 32 recorded choices before those in the head
    pub parent: u32,
    // the newest recorded choices, the last one in the lowest bit
    pub head: u32,
    // how many choices are recorded
    pub recorded: u32,
}

impl Telling {
    // Of a play that has not begun.
    #[tactic(auto, unfolding(crate::specs::Trails::Lies, crate::specs::Trails::bits_of, crate::specs::Trails::chain))]
    pub fn none() -> Telling
        ensures value { result ≡ none }
        ensures sound { (a : ℕ) (s : List ℕ) → Sound a s result }
        ensures tells { (a : ℕ) (s : List ℕ) → Tells a s result [] }
    {
        Telling::default()
    }

    // The one that stands in the first seven words.
    pub fn read(words: &[u32]) -> Telling
        requires { 7 ≤ length words.now }
        ensures { result ≡ telling_of words.now }
    {
        Telling {
            time: joined(words[0], words[1]),
            count: joined(words[2], words[3]),
            parent: words[4],
            head: words[5],
            recorded: words[6],
        }
    }

    // Writes it over seven words.
    pub fn write(self, words: &mut [u32])
        requires { length words.old ≡ 7 }
        ensures { words.new ≡ telling_words self }
    {
        let time = halves(self.time);
        let count = halves(self.count);
        words.copy_from_slice(&[
            time.0,
            time.1,
            count.0,
            count.1,
            self.parent,
            self.head,
            self.recorded,
        ]);
    }
}

// A number by its low and its high word.
pub fn joined(low: u32, high: u32) -> u64
    ensures { result ≡ low + 4294967296 * high }
{
    u64::from(low) + WORD * u64::from(high)
}

// The low and the high word of a number.
pub fn halves(n: u64) -> (u32, u32)
    ensures low { result.0 ≡ n % 4294967296 }
    ensures high { result.1 ≡ n / 4294967296 }
{
    ((n % WORD) as u32, (n / WORD) as u32)
}

#[cfg(test)]
mod tests {
    use super::*;

    #[test]
    fn stands_in_seven_words(rt: HostRuntime) {
        let mut words = [9; 7];
        let telling = Telling {
            time: 4294967298,
            count: 12884901892,
            parent: 5,
            head: 6,
            recorded: 7,
        };
        telling.write(&mut words);
        assert_eq!(rt; &words[..], [2, 1, 4, 3, 5, 6, 7].as_slice());
        assert_eq!(rt; Telling::read(&words), telling);
    }
}
