ghost use Rattle.std.specs.Prelude.{◌≡◌, ◌*◌, ◌<◌, ◌≤◌};

use crate::LIMIT;
use crate::fault::{Fault, Rule};
use std::fmt;

// The words of a cache, which stand before its program's.
pub const CACHE_WORDS: usize = 6;

const MOST_SETS: u32 = 64;

const MOST_WAYS: u32 = 8;

const MOST_LINE: u32 = 64;

// Which line a full set evicts when another comes in.
#[derive(Clone, Copy, PartialEq, Eq, Debug)]
pub enum Policy {
    // the one that was used longest ago
    Lru,
    // the one that came longest ago
    Fifo,
}

impl TryFrom<u32> for Policy {
    ghost use Rattle.cycles.specs.Reading.{Names};

    type Error = Rule;

    ghost try_from_gives = { Names };

    fn try_from(word: u32) -> Result<Policy, Rule> {
        match word {
            0 => Ok(Policy::Fifo),
            1 => Ok(Policy::Lru),
            _ => Err(Rule::PolicyWord(word)),
        }
    }
}

impl fmt::Display for Policy {
    fn fmt<W: fmt::Write>(&self, f: &mut fmt::Formatter<W>) -> fmt::Result {
        match self {
            Policy::Lru => f.write_str("lru"),
            Policy::Fifo => f.write_str("fifo"),
        }
    }
}

// A cache's shape and its cycles; a geometry that exists keeps the limits.
#[derive(Clone, Copy, PartialEq, Eq, Debug)]
pub struct Geometry {
    pub sets: u32,
    pub ways: u32,
    // words in a line
    pub line: u32,
    // cycles of a hit and of a miss
    pub hit: u32,
    pub miss: u32,
    pub policy: Policy,
    ghost sets_fit: { (1 ≤ sets) × (sets ≤ 64) },
    ghost ways_fit: { (1 ≤ ways) × (ways ≤ 8) },
    ghost line_fits: { (1 ≤ line) × (line ≤ 64) },
    ghost cycles_fit: { (hit ≤ miss) × (miss < 65536) },
}

impl Geometry {
    ghost use Rattle.cycles.specs.Reading.{Shapes};

    // How many lines fit: the ways of all sets.
    pub fn cells(self) -> usize
        ensures { result ≡ self.sets * self.ways }
    {
        self.sets as usize * self.ways as usize
    }

    // The cache whose six words stand first.
    pub(crate) fn read(words: &[u32]) -> Result<Geometry, Fault>
        ensures { Shapes words.now result }
    {
        let [sets, ways, line, hit, miss, policy, ..] = *words else {
            let rule = if words.is_empty() {
                Rule::Empty
            } else {
                Rule::CacheCut
            };
            return Err(rule.at(words.len()));
        };
        if sets < 1 || sets > MOST_SETS {
            return Err(Rule::Sets(sets).at(0));
        }
        if ways < 1 || ways > MOST_WAYS {
            return Err(Rule::Ways(ways).at(1));
        }
        if line < 1 || line > MOST_LINE {
            return Err(Rule::LineWords(line).at(2));
        }
        if miss >= LIMIT {
            return Err(Rule::MissCycles(miss).at(4));
        }
        if hit > miss {
            return Err(Rule::HitAboveMiss(hit, miss).at(4));
        }
        let policy = Policy::try_from(policy).map_err(|rule| rule.at(5))?;
        Ok(Geometry {
            sets,
            ways,
            line,
            hit,
            miss,
            policy,
        })
    }
}

impl fmt::Display for Geometry {
    fn fmt<W: fmt::Write>(&self, f: &mut fmt::Formatter<W>) -> fmt::Result {
        write!(
            f,
            "cache sets {} ways {} line {} hit {} miss {} {}",
            self.sets, self.ways, self.line, self.hit, self.miss, self.policy
        )
    }
}
