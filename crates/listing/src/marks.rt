// Marks: one bit for each word and each newline of a text, in the order in which they stand there.
mod packing;

ghost use Rattle.std.specs.Prelude.{◌+◌, ◌*◌, ◌/◌, ◌^◌, ◌<◌, ◌≤◌, vec_len, vec_capacity};

use std::error::Error;
use std::fmt;

// There is no room for one mark more.
#[derive(Clone, Copy, PartialEq, Eq, Debug)]
pub struct Full {
    pub room: usize,
}

impl fmt::Display for Full {
    fn fmt<W: fmt::Write>(&self, f: &mut fmt::Formatter<W>) -> fmt::Result {
        let room = self.room;
        write!(f, "more than {room} words and lines together")
    }
}

impl Error for Full {}

// Thirty-two bits to a word of `full`, the first in the highest place; the `held` bits that fill no word yet stand in `head`.
#[derive(Debug, Drop)]
pub struct Marks {
    full: Vec<u32>,
    head: u32,
    held: usize,
    room: usize,
    ghost head_fits: { (held < 32) × (head < 2 ^ held) },
    ghost within: { 32 * vec_len full + held ≤ room },
    ghost reserved: { room / 32 ≤ vec_capacity full },
    ghost counted: { room + 1 < 2 ^ 64 },
}

#[cfg(test)]
mod tests {
    use super::*;
    use std::test::Fail;

    #[test]
    fn marks_up_to_its_room(rt: HostRuntime) -> Result<(), Fail> {
        let mut marks = Marks::new(rt.alloc(), 3)?;
        assert_eq!(rt; marks.push(false), Ok(()));
        assert_eq!(rt; marks.push(true), Ok(()));
        assert_eq!(rt; marks.push(false), Ok(()));
        assert_eq!(rt; marks.push(true), Err(Full { room: 3 }));
        assert_eq!(rt; marks.line_of(1), Some(2));
        assert_eq!(rt; marks.line_of(2), None);
        Ok(())
    }
}
