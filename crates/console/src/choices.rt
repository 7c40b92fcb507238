ghost use Rattle.std.specs.Prelude.{◌≡◌, ◌++◌, ◌≤◌, OnOk, IfOk, vec_len, vec_capacity};

use crate::failure::Failure;
use crate::input::{STANDARD_INPUT, Stop, read_pieces};
use listing::ShownByte;
use std::alloc::{AllocError, Global};
use std::error::Error;
use std::fmt;

// What is wrong with a text of choices.
#[derive(Clone, Copy, PartialEq, Eq, Debug)]
pub enum BadChoice {
    NoChoice(u8),
    // more choices than there is room for
    TooMany(usize),
}

impl fmt::Display for BadChoice {
    fn fmt<W: fmt::Write>(&self, f: &mut fmt::Formatter<W>) -> fmt::Result {
        match *self {
            BadChoice::NoChoice(byte) => {
                let byte = ShownByte(byte);
                write!(f, "{byte} is no choice: 1 is the first, 0 the second")
            }
            BadChoice::TooMany(room) => write!(f, "more than {room} choices"),
        }
    }
}

impl Error for BadChoice {}

// A place in a text, its line and its column counted from 1.
#[derive(Clone, Copy, PartialEq, Eq, Debug)]
pub struct Position {
    pub line: usize,
    pub column: usize,
}

impl Position {
    ghost use Rattle.console.specs.Chosen.{behind};

    const START: Position = Position { line: 1, column: 1 };

    // Where the text goes on behind a byte that stands here.
    fn behind(self, byte: u8) -> Position
        ensures { result ≡ behind self byte }
    {
        if byte == b'\n' {
            Position {
                line: self.line.saturating_add(1),
                column: 1,
            }
        } else {
            Position {
                column: self.column.saturating_add(1),
                ..self
            }
        }
    }
}

impl fmt::Display for Position {
    fn fmt<W: fmt::Write>(&self, f: &mut fmt::Formatter<W>) -> fmt::Result {
        write!(f, "{}: column {}", self.line, self.column)
    }
}

// Choices as text, digits with white space between them, and where in the text reading has come to.
#[derive(Debug, Drop)]
pub struct ChoiceText {
    choices: Vec<bool>,
    most: usize,
    position: Position,
    ghost reserved: { most ≤ vec_capacity choices },
    ghost roomy: { vec_len choices ≤ most },
}

impl ChoiceText {
    ghost use Rattle.console.specs.Chosen.{Fed, Takes, Typed, choices_in, empty, reads, shown};

    // An empty text, with all the memory that so many choices take.
    pub fn new(heap: Global, most: usize) -> Result<ChoiceText, AllocError>
        ensures { IfOk result (λ t. (shown t ≡ empty) × (t.most ≡ most)) }
    {
        Ok(ChoiceText {
            choices: Vec::with_capacity(heap, most)?,
            most,
            position: Position::START,
        })
    }

    // The choices on standard input.
    pub fn from_stdin(rt: &HostRuntime, most: usize) -> Result<ChoiceText, Failure> {
        let mut text = ChoiceText::new(rt.alloc(), most)?;
        match read_pieces(rt.stdin(), |piece| text.feed(piece)) {
            Ok(()) => Ok(text),
            Err(Stop::Input(error)) => {
                let name = String::from_str(rt.alloc(), STANDARD_INPUT)?;
                Err(Failure::File(name, error))
            }
            Err(Stop::Flaw(flaw)) => Err(Failure::Choice(text.position(), flaw)),
        }
    }

    // The choices of a text that is there already.
    pub fn from_text(heap: Global, most: usize, digits: &str) -> Result<ChoiceText, Failure>
        ensures { Typed most digits.now result }
    {
        let mut text = ChoiceText::new(heap, most)?;
        match text.feed(digits.as_bytes()) {
            Ok(()) => Ok(text),
            Err(flaw) => Err(Failure::Choice(text.position(), flaw)),
        }
    }

    pub fn choices(&self) -> &[bool]
        ensures { result.now ≡ self.now.choices.items }
    {
        self.choices.as_slice()
    }

    // The position that is next.
    pub fn position(&self) -> Position
        ensures { result ≡ self.now.position }
    {
        self.position
    }

    // Reads the next piece of the text. At a refusal all is as it was before the byte that is refused.
    #[tactic(auto, using(crate::proofs::Digits::runs))]
    pub fn feed(&mut self, bytes: &[u8]) -> Result<(), BadChoice>
        ensures fed { Fed result (shown self.new) (reads self.old.most bytes.now (shown self.old)) }
        ensures most { self.new.most ≡ self.old.most }
        ensures choices { OnOk result (self.new.choices.items ≡ self.old.choices.items ++ choices_in bytes.now) }
    {
        for byte in bytes {
            self.read(*byte)?;
        }
        Ok(())
    }

    #[tactic(auto, unfolding(crate::specs::Chosen::step))]
    fn read(&mut self, byte: u8) -> Result<(), BadChoice>
        ensures takes { Takes result self.old.most byte (shown self.old) (shown self.new) }
        ensures most { self.new.most ≡ self.old.most }
    {
        if byte == b'0' || byte == b'1' {
            if self.choices.len() == self.most {
                return Err(BadChoice::TooMany(self.most));
            }
            self.choices.push_reserved(byte == b'1');
        } else if !byte.is_ascii_whitespace() {
            return Err(BadChoice::NoChoice(byte));
        }
        self.position = self.position.behind(byte);
        Ok(())
    }
}

#[cfg(test)]
mod tests {
    use super::*;
    use std::test::Fail;

    #[test]
    fn reads_choices(rt: HostRuntime) -> Result<(), Fail> {
        let text = ChoiceText::from_text(rt.alloc(), 3, "1 0\n\t1")?;
        assert_eq!(rt; text.choices(), [true, false, true].as_slice());
        assert_eq!(rt; text.position(), Position { line: 2, column: 3 });
        Ok(())
    }

    #[test]
    fn stops_at_what_is_refused(rt: HostRuntime) -> Result<(), Fail> {
        let mut text = ChoiceText::new(rt.alloc(), 2)?;
        assert_eq!(rt; text.feed(b"1\nx0"), Err(BadChoice::NoChoice(b'x')));
        assert_eq!(rt; text.position(), Position { line: 2, column: 1 });
        assert_eq!(rt; text.feed(b"000"), Err(BadChoice::TooMany(2)));
        assert_eq!(rt; text.choices(), [true, false].as_slice());
        Ok(())
    }
}
