// A text is read into the words that its numbers are.
mod reading;

ghost use Rattle.std.specs.Prelude.{◌≡◌, ◌+◌, ◌≤◌, vec_len, vec_capacity};
ghost use Rattle.listing.specs.declared.text.Flaw.TheVariants.{TooManyLines};
ghost use Rattle.listing.specs.Rooms.{begun};

use crate::byte::ShownByte;
use crate::marks::{Full, Marks};
use std::error::Error;
use std::fmt;

// How many words, and words and lines together, there is room for: 4 bytes a word and a bit a mark.
#[derive(Clone, Copy, PartialEq, Eq, Debug)]
pub struct Room {
    pub words: usize,
    pub marks: usize,
}

// What is wrong with a byte of the text; the last two have the room that there was.
#[derive(Clone, Copy, PartialEq, Eq, Debug)]
pub enum Flaw {
    NotDigit(u8),
    TooLarge,
    TooManyWords(usize),
    TooManyLines(usize),
}

impl fmt::Display for Flaw {
    fn fmt<W: fmt::Write>(&self, f: &mut fmt::Formatter<W>) -> fmt::Result {
        match *self {
            Flaw::NotDigit(byte) => {
                let byte = ShownByte(byte);
                write!(f, "{byte} is no digit: a word is a decimal number")
            }
            Flaw::TooLarge => write!(f, "the number is larger than 4294967295, the largest word"),
            Flaw::TooManyWords(room) => write!(f, "more than {room} words"),
            Flaw::TooManyLines(room) => Full { room }.fmt(f),
        }
    }
}

impl Error for Flaw {}

impl From<Full> for Flaw {
    ghost from_gives = { λ full flaw. flaw ≡ TooManyLines full.room };

    fn from(full: Full) -> Flaw {
        Flaw::TooManyLines(full.room)
    }
}

// Where reading has come to: between two numbers, in a number with its value so far, or in a comment.
#[derive(Clone, Copy, PartialEq, Eq, Debug)]
enum Mode {
    Between,
    Number(u32),
    Comment,
}

// The words of the text so far. A word has its mark from its first digit on, and in a number there is room for its word.
#[derive(Debug, Drop)]
pub struct Listing {
    words: Vec<u32>,
    most_words: usize,
    marks: Marks,
    mode: Mode,
    ghost reserved: { most_words ≤ vec_capacity words },
    ghost roomy: { vec_len words + begun mode ≤ most_words },
}

#[cfg(test)]
mod tests {
    use super::*;
    use std::test::Fail;

    #[test]
    fn reads_words_and_their_lines(rt: HostRuntime) -> Result<(), Fail> {
        let mut listing = Listing::new(
            rt.alloc(),
            Room {
                words: 8,
                marks: 16,
            },
        )?;
        listing.feed(b"# 9 words\n1\t007 \r\n\n 4294967295#2\n")?;
        listing.feed(b"1")?;
        listing.feed(b"2")?;
        listing.finish();
        assert_eq!(rt; listing.words(), [1, 7, 4294967295, 12].as_slice());
        assert_eq!(rt; listing.line_of(0), Some(2));
        assert_eq!(rt; listing.line_of(1), Some(2));
        assert_eq!(rt; listing.line_of(2), Some(4));
        assert_eq!(rt; listing.line_of(3), Some(5));
        assert_eq!(rt; listing.line_of(4), None);
        assert_eq!(rt; listing.line(), 5);
        Ok(())
    }

    #[test]
    fn tells_each_flaw(rt: HostRuntime) -> Result<(), Fail> {
        let mut listing = Listing::new(rt.alloc(), Room { words: 2, marks: 4 })?;
        assert_eq!(rt; listing.feed(b"\n1x"), Err(Flaw::NotDigit(b'x')));
        assert_eq!(rt; listing.line(), 2);
        assert_eq!(rt; listing.feed(b"\n4294967296"), Err(Flaw::TooLarge));
        assert_eq!(rt; listing.feed(b" 7"), Err(Flaw::TooManyWords(2)));
        assert_eq!(rt; listing.feed(b"\n"), Err(Flaw::TooManyLines(4)));
        listing.finish();
        assert_eq!(rt; listing.words(), [1, 429496729].as_slice());
        Ok(())
    }

    #[test]
    fn says_what_is_wrong(rt: HostRuntime) -> Result<(), Fail> {
        let sign = Flaw::NotDigit(b'x').to_string(rt.alloc())?;
        assert_eq!(rt;
            sign.as_str(),
            "'x' is no digit: a word is a decimal number"
        );
        let byte = Flaw::NotDigit(0xc3).to_string(rt.alloc())?;
        assert_eq!(rt;
            byte.as_str(),
            "byte 0xc3 is no digit: a word is a decimal number"
        );
        let lines = Flaw::TooManyLines(4).to_string(rt.alloc())?;
        assert_eq!(rt; lines.as_str(), "more than 4 words and lines together");
        Ok(())
    }
}
