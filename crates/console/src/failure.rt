ghost use Rattle.std.specs.Prelude.{◌≡◌, MatchResult};
ghost use Rattle.console.specs.declared.failure.Failure.TheVariants.{Memory};
ghost use Rattle.std.specs.Process.{exit_status};

use crate::choices::{BadChoice, Position};
use crate::input::STANDARD_INPUT;
use cycles::fault::Rule;
use listing::Flaw;
use machine::player::PlayError;
use std::alloc::{AllocError, AllocFailed};
use std::error::Error;
use std::process::ExitCode;
use std::{fmt, io};

// A word of a file, and the line on which it stands, both counted from 1.
#[derive(Debug, Drop)]
pub struct Location {
    pub file: String,
    pub line: usize,
    pub word: usize,
}

impl fmt::Display for Location {
    fn fmt<W: fmt::Write>(&self, f: &mut fmt::Formatter<W>) -> fmt::Result {
        write!(f, "{}:{}: word {}", self.file, self.line, self.word)
    }
}

// Why a program gives up; its message stands behind the program's name.
#[derive(Debug, Drop)]
pub enum Failure {
    // words on the command line that make no sense
    Usage(&'static str, String),
    NoFile,
    // a file that cannot be read
    File(String, io::Error),
    // a text that is no list of words
    Text(Location, Flaw),
    // words that are no program
    Words(Location, Rule),
    // a text that is no list of choices
    Choice(Position, BadChoice),
    // a program that so many choices do not play
    Play {
        file: String,
        given: usize,
        error: PlayError,
    },
    Output(io::Error),
    Memory,
}

impl fmt::Display for Failure {
    fn fmt<W: fmt::Write>(&self, f: &mut fmt::Formatter<W>) -> fmt::Result {
        match self {
            Failure::Usage(what, word) => write!(f, "{what} '{word}': --help tells the usage"),
            Failure::NoFile => f.write_str("no file is named: --help tells the usage"),
            Failure::File(file, error) => write!(f, "{file}: {error}"),
            Failure::Text(place, flaw) => write!(f, "{place}: {flaw}"),
            Failure::Words(place, rule) => write!(f, "{place}: {rule}"),
            Failure::Choice(position, flaw) => write!(f, "{STANDARD_INPUT}:{position}: {flaw}"),
            Failure::Play {
                file,
                given,
                error: PlayError::RanOut,
            } => write!(
                f,
                "{file}: too few choices: all {given} are used, and an either is come to"
            ),
            Failure::Play {
                file,
                given,
                error: PlayError::LeftOver(played),
            } => write!(
                f,
                "{file}: choices left over: {given} are given, and {} used",
                played.choices
            ),
            Failure::Play { file, error, .. } => write!(f, "{file}: {error}"),
            Failure::Output(error) => write!(f, "standard output: {error}"),
            Failure::Memory => f.write_str("out of memory"),
        }
    }
}

impl Error for Failure {}

impl From<AllocError> for Failure {
    ghost from_gives = { λ _ f. f ≡ Memory };

    fn from(_e: AllocError) -> Failure {
        Failure::Memory
    }
}

impl<T: Drop> From<AllocFailed<T>> for Failure {
    ghost from_gives = { λ _ f. f ≡ Memory };

    fn from(_e: AllocFailed<T>) -> Failure {
        Failure::Memory
    }
}

impl From<io::Error> for Failure {
    fn from(e: io::Error) -> Failure {
        Failure::Output(e)
    }
}

// The exit status of a program that has ended so; a failure is told on standard error.
pub fn ended(rt: &HostRuntime, program: &str, outcome: Result<(), Failure>) -> ExitCode
    ensures { MatchResult outcome (λ _. exit_status result ≡ 0) (λ _. exit_status result ≡ 1) }
{
    match outcome {
        Ok(()) => ExitCode::SUCCESS,
        Err(failure) => {
            // Nothing more can be done where standard error cannot be written to.
            let _ = eprintln!(rt; "{program}: {failure}");
            ExitCode::FAILURE
        }
    }
}
