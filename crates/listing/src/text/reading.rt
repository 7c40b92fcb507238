ghost use Rattle.std.specs.Prelude.{◌≡◌, ◌+◌, IfOk};
ghost use Rattle.listing.specs.Laws.{CutAnywhere, ReadBack, CommentsSkipped};
ghost use Rattle.listing.specs.Lines.{newlines_in, line_of};
ghost use Rattle.listing.specs.Text.{Fed, Makes, empty, shown, limits_of, sign_of, begins, lengthened, ended, lined, between, in_number, in_comment, step, reads, finished};

use super::{Flaw, Listing, Mode, Room};
use crate::marks::Marks;
use std::alloc::{AllocError, Global};

// What a byte is to the reader.
#[derive(Clone, Copy, PartialEq, Eq, Debug)]
enum Sign {
    Digit(u8),
    Blank,
    Newline,
    Hash,
    Other,
}

impl From<u8> for Sign {
    ghost from_gives = { λ byte sign. sign ≡ sign_of byte };

    fn from(byte: u8) -> Sign {
        match byte {
            b'0'..=b'9' => Sign::Digit(byte - b'0'),
            b' ' | b'\t' | b'\r' => Sign::Blank,
            b'\n' => Sign::Newline,
            b'#' => Sign::Hash,
            _ => Sign::Other,
        }
    }
}

impl Listing {
    // An empty text, with all the memory that its words and its marks, one for each word and each newline, will take.
    pub fn new(heap: Global, room: Room) -> Result<Listing, AllocError>
        ensures { IfOk result (λ l. (shown l ≡ empty) × (limits_of l ≡ room)) }
    {
        Ok(Listing {
            words: Vec::with_capacity(heap, room.words)?,
            most_words: room.words,
            marks: Marks::new(heap, room.marks)?,
            mode: Mode::Between,
        })
    }

    pub fn words(&self) -> &[u32]
        ensures { result.now ≡ (shown self.now).words }
    {
        self.words.as_slice()
    }

    // The words alone: what the marks took is given back.
    pub fn into_words(self) -> Vec<u32>
        ensures { result.items ≡ (shown self).words }
    {
        let Listing { words, .. } = self;
        words
    }

    // The line, from 1, on which the word number `word`, from 0, stands.
    pub fn line_of(&self, word: usize) -> Option<usize>
        ensures { result ≡ line_of (shown self.now).marks word }
    {
        self.marks.line_of(word)
    }

    // The line, from 1, that is being read.
    pub fn line(&self) -> usize
        ensures { result ≡ newlines_in (shown self.now).marks + 1 }
    {
        self.marks.newlines() + 1
    }

    // Reads the next piece of the text. At a flaw the listing stays as it was before the byte that is wrong.
    #[tactic(auto, using(crate::proofs::Steps::runs, crate::proofs::Theorems::theorems))]
    pub fn feed(&mut self, bytes: &[u8]) -> Result<(), Flaw>
        ensures fed { Fed result (shown self.new) (reads (limits_of self.old) bytes.now (shown self.old)) }
        ensures limits { limits_of self.new ≡ limits_of self.old }
        ensures cut { CutAnywhere }
        ensures back { ReadBack }
        ensures comments { CommentsSkipped }
    {
        for byte in bytes {
            self.read(*byte)?;
        }
        Ok(())
    }

    // The text ends here, so a number that is being read is a word.
    pub fn finish(&mut self)
        ensures after { shown self.new ≡ finished (shown self.old) }
        ensures limits { limits_of self.new ≡ limits_of self.old }
    {
        if let Mode::Number(last) = self.mode {
            self.end_word(last);
        }
    }

    #[tactic(auto, using(crate::proofs::Steps::bytes))]
    fn read(&mut self, byte: u8) -> Result<(), Flaw>
        ensures { Makes result self.old self.new (λ room text. step room text byte) }
    {
        match self.mode {
            Mode::Between => self.read_between(byte),
            Mode::Number(value) => self.read_in_number(value, byte),
            Mode::Comment => self.read_in_comment(byte),
        }
    }

    fn read_between(&mut self, byte: u8) -> Result<(), Flaw>
        requires { self.old.mode ≡ Mode.Between }
        ensures { Makes result self.old self.new (λ room text. between room text byte (sign_of byte)) }
    {
        match Sign::from(byte) {
            Sign::Digit(digit) => self.begin_word(digit),
            Sign::Blank => Ok(()),
            Sign::Newline => self.mark_line(),
            Sign::Hash => {
                self.mode = Mode::Comment;
                Ok(())
            }
            Sign::Other => Err(Flaw::NotDigit(byte)),
        }
    }

    fn read_in_number(&mut self, value: u32, byte: u8) -> Result<(), Flaw>
        requires { self.old.mode ≡ Mode.Number value }
        ensures { Makes result self.old self.new (λ room text. in_number room text value byte (sign_of byte)) }
    {
        match Sign::from(byte) {
            Sign::Digit(digit) => self.lengthen(value, digit),
            Sign::Blank => {
                self.end_word(value);
                Ok(())
            }
            Sign::Newline => {
                self.mark_line()?;
                self.end_word(value);
                Ok(())
            }
            Sign::Hash => {
                self.end_word(value);
                self.mode = Mode::Comment;
                Ok(())
            }
            Sign::Other => Err(Flaw::NotDigit(byte)),
        }
    }

    fn read_in_comment(&mut self, byte: u8) -> Result<(), Flaw>
        requires { self.old.mode ≡ Mode.Comment }
        ensures { Makes result self.old self.new (λ room text. in_comment room text byte) }
    {
        if byte == b'\n' {
            self.mark_line()?;
            self.mode = Mode::Between;
        }
        Ok(())
    }

    // Marks the word that begins with this digit, if there is room for it.
    fn begin_word(&mut self, digit: u8) -> Result<(), Flaw>
        requires { self.old.mode ≡ Mode.Between }
        ensures { Makes result self.old self.new (λ room text. begins room text digit) }
    {
        if self.words.len() == self.most_words {
            return Err(Flaw::TooManyWords(self.most_words));
        }
        self.marks.push(false)?;
        self.mode = Mode::Number(u32::from(digit));
        Ok(())
    }

    fn lengthen(&mut self, value: u32, digit: u8) -> Result<(), Flaw>
        requires { self.old.mode ≡ Mode.Number value }
        ensures { Makes result self.old self.new (λ _ text. lengthened text value digit) }
    {
        let longer = u64::from(value) * 10 + u64::from(digit);
        let longer = u32::try_from(longer).map_err(|_| Flaw::TooLarge)?;
        self.mode = Mode::Number(longer);
        Ok(())
    }

    fn end_word(&mut self, value: u32)
        requires { self.old.mode ≡ Mode.Number value }
        ensures after { shown self.new ≡ ended (shown self.old) value }
        ensures limits { limits_of self.new ≡ limits_of self.old }
    {
        self.words.push_reserved(value);
        self.mode = Mode::Between;
    }

    fn mark_line(&mut self) -> Result<(), Flaw>
        ensures { Makes result self.old self.new lined }
    {
        self.marks.push(true)?;
        Ok(())
    }
}
