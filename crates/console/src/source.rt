ghost use Rattle.std.specs.Prelude.{◌≡◌, ◌≤◌, drop, vec_len};

use crate::failure::{Failure, Location};
use crate::input::{STANDARD_INPUT, Stop, read_pieces};
use cycles::geometry::{CACHE_WORDS, Geometry};
use cycles::reader::read;
use listing::Listing;
pub use listing::Room;
use std::alloc::Global;
use std::fs;
use std::io::Read;

// The most that fits into 4 MiB, with a piece of the text.
pub const LARGEST: Room = Room {
    words: 1000448,
    marks: 1507328,
};

// A program that was read, with its cache; the cache's six words stand first.
#[derive(Debug, Drop)]
pub struct Program {
    pub name: String,
    pub cache: Geometry,
    words: Vec<u32>,
    ghost whole: { 6 ≤ vec_len words },
}

impl Program {
    // All words, the cache's first.
    pub fn words(&self) -> &[u32]
        ensures { result.now ≡ self.now.words.items }
    {
        self.words.as_slice()
    }

    // The program's own words, behind the six of the cache.
    pub fn code(&self) -> &[u32]
        ensures { result.now ≡ drop 6 self.now.words.items }
    {
        &self.words[CACHE_WORDS..]
    }
}

// The words of a file or of standard input, and where they come from.
#[derive(Debug, Drop)]
pub struct Source {
    name: String,
    listing: Listing,
}

impl Source {
    ghost use Rattle.console.specs.Loaded.{Told};
    ghost use Rattle.listing.specs.Text.{shown};

    pub fn from_stdin(rt: &HostRuntime, room: Room) -> Result<Source, Failure> {
        let listing = Listing::new(rt.alloc(), room)?;
        let name = String::from_str(rt.alloc(), STANDARD_INPUT)?;
        Source::from_input(listing, name, rt.stdin())
    }

    // Nothing is opened where there is no memory for its words.
    pub fn from_file(rt: &HostRuntime, room: Room, path: String) -> Result<Source, Failure> {
        let listing = Listing::new(rt.alloc(), room)?;
        match fs::open(rt, path.as_str()) {
            Ok(file) => Source::from_input(listing, path, file),
            Err(error) => Err(Failure::File(path, error)),
        }
    }

    // A text that is there already, under a name for messages.
    pub fn from_text(heap: Global, room: Room, name: &str, text: &[u8]) -> Result<Source, Failure> {
        let listing = Listing::new(heap, room)?;
        let name = String::from_str(heap, name)?;
        Source::from_input(listing, name, text)
    }

    fn from_input<R: Read + Drop>(
        mut listing: Listing,
        name: String,
        input: R,
    ) -> Result<Source, Failure> {
        match read_pieces(input, |piece| listing.feed(piece)) {
            Ok(()) => {
                listing.finish();
                Ok(Source { name, listing })
            }
            Err(Stop::Input(error)) => Err(Failure::File(name, error)),
            Err(Stop::Flaw(flaw)) => {
                let place = Location {
                    file: name,
                    line: listing.line(),
                    word: listing.words().len().saturating_add(1),
                };
                Err(Failure::Text(place, flaw))
            }
        }
    }

    // The program that the words are; else where and how they are none.
    pub fn read(self) -> Result<Program, Failure>
        ensures { Told (shown self.listing) result }
    {
        let Source { name, listing } = self;
        match read(listing.words()) {
            Ok(cache) => {
                let words = listing.into_words();
                Ok(Program { name, cache, words })
            }
            Err(fault) => {
                let line = listing
                    .line_of(fault.place)
                    .unwrap_or_else(|| listing.line());
                let place = Location {
                    file: name,
                    line,
                    word: fault.place.saturating_add(1),
                };
                Err(Failure::Words(place, fault.rule))
            }
        }
    }
}
