ghost use Rattle.std.specs.Prelude.{◌≡◌, ◌*◌, length};
ghost use Rattle.engine.specs.Tabulating.{TabulatePost};
ghost use Rattle.engine.specs.declared.tabulate.TabulateError.TheVariants.{NoProgram};
ghost use Rattle.tables.specs.Showing.{firsts_of};

use crate::pass::{Pass, Point, run};
use cycles::fault::Fault;
use cycles::reader::read;
use machine::rounds::Rounds;
use std::error::Error;
use std::fmt;
use tables::slot::{Firsts, begin, width};
use trails::Store;

// A table that is done: how many entries it has, and how many words of the store its trails take.
#[derive(Clone, Copy, PartialEq, Eq, Debug)]
pub struct Tabulated {
    pub entries: usize,
    pub top: usize,
}

// Why there is no table.
#[derive(Clone, Copy, PartialEq, Eq, Debug)]
pub enum TabulateError {
    NoProgram(Fault),
    // fewer words were lent for the slots than the entries allowed take
    Few,
    // more entries are asked for than allowed
    Crowded,
}

impl From<Fault> for TabulateError {
    ghost from_gives = { λ f e. e ≡ NoProgram f };

    fn from(fault: Fault) -> TabulateError {
        TabulateError::NoProgram(fault)
    }
}

impl fmt::Display for TabulateError {
    fn fmt<W: fmt::Write>(&self, f: &mut fmt::Formatter<W>) -> fmt::Result {
        match *self {
            TabulateError::NoProgram(fault) => write!(f, "{fault}"),
            TabulateError::Few => f.write_str("fewer words than the entries allowed take"),
            TabulateError::Crowded => f.write_str("more entries than allowed"),
        }
    }
}

impl Error for TabulateError {}

// Computes the table behind a program from the empty cache, in lent words: at most so many entries in the slots, and their trails in the store.
pub fn tabulate(
    words: &[u32],
    firsts: Firsts,
    most: u32,
    slots: &mut [u32],
    store: &mut [u32],
) -> Result<Tabulated, TabulateError>
    ensures { TabulatePost words.now (firsts_of firsts) most (length slots.old) slots.new store.new result }
{
    let cache = read(words)?;
    let room = most as usize;
    if slots.len() < width(cache) * room {
        return Err(TabulateError::Few);
    }
    if room == 0 {
        return Err(TabulateError::Crowded);
    }
    begin(&mut slots[0..width(cache)], cache);
    let pass = Pass {
        words,
        cache,
        firsts,
        rounds: Rounds::none(),
    };
    let mut trails = Store::new(store);
    let end = run(pass, Point::START, room, slots, &mut trails).ok_or(TabulateError::Crowded)?;
    Ok(Tabulated {
        entries: end.count,
        top: trails.top,
    })
}
