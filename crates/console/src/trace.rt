ghost use Rattle.std.specs.Prelude.{◌≡◌, Ok};

use machine::cache::Outcome;
use machine::observer::{Access, Event, Observer};
use machine::player::Played;
use machine::tally::Tally;
use std::io::Write;
use std::{fmt, io};

// The heads of the columns, as wide as they are in each row.
pub const HEADER: &str = "       cycle  cycles  what     address        line  set      evicts";

// A row of the trace.
#[derive(Clone, Copy)]
struct Row(Event);

impl fmt::Display for Row {
    fn fmt<W: fmt::Write>(&self, f: &mut fmt::Formatter<W>) -> fmt::Result {
        match self.0 {
            Event::Work(start, cycles) => write!(
                f,
                "{start:>12}  {cycles:>6}  work           -           -    -           -"
            ),
            Event::Touch(access) => {
                let touched = access.touched;
                let (what, evicted) = match touched.outcome {
                    Outcome::Hit => ("hit ", None),
                    Outcome::Miss { evicted } => ("miss", evicted),
                };
                write!(
                    f,
                    "{:>12}  {:>6}  {what}  {:>10}  {:>10}  {:>3}",
                    access.start, touched.cycles, access.address, touched.line, touched.set
                )?;
                match evicted {
                    Some(line) => write!(f, "  {line:>10}"),
                    None => f.write_str("           -"),
                }
            }
        }
    }
}

// Writes a row for each work and touch, up to the first error that it meets.
#[derive(Drop)]
pub struct Printer<W: Write + Drop> {
    out: W,
    outcome: io::Result<()>,
}

impl<W: Write + Drop> Printer<W> {
    // No error was met yet.
    pub fn new(out: W) -> Printer<W>
        ensures { result ≡ record { out = out; outcome = Ok tt } }
    {
        Printer {
            out,
            outcome: Ok(()),
        }
    }

    fn print(&mut self, event: Event) {
        if self.outcome.is_ok() {
            self.outcome = writeln!(self.out, "{}", Row(event));
        }
    }

    // Writes what is still held, and tells the error if there was one.
    pub fn finish(mut self) -> io::Result<()> {
        self.outcome?;
        self.out.flush()
    }
}

impl<W: Write + Drop> Observer for Printer<W> {
    ghost told = { λ _ _. Unit {0} };

    fn work(&mut self, start: u64, cycles: u32) {
        self.print(Event::Work(start, cycles));
    }

    fn touch(&mut self, access: Access) {
        self.print(Event::Touch(access));
    }
}

// A number of things.
#[derive(Clone, Copy)]
struct Count {
    number: u64,
    one: &'static str,
    many: &'static str,
}

impl Count {
    fn new(number: u64, one: &'static str, many: &'static str) -> Count {
        Count { number, one, many }
    }
}

impl fmt::Display for Count {
    fn fmt<W: fmt::Write>(&self, f: &mut fmt::Formatter<W>) -> fmt::Result {
        let name = if self.number == 1 {
            self.one
        } else {
            self.many
        };
        write!(f, "{} {name}", self.number)
    }
}

// What a whole play comes to, the last line of its trace.
#[derive(Clone, Copy, PartialEq, Eq, Debug)]
pub struct Total {
    pub played: Played,
    pub tally: Tally,
}

impl fmt::Display for Total {
    fn fmt<W: fmt::Write>(&self, f: &mut fmt::Formatter<W>) -> fmt::Result {
        let Tally { hits, misses, work } = self.tally;
        let cycles = Count::new(self.played.cycles, "cycle", "cycles");
        let touches = Count::new(hits.saturating_add(misses), "touch", "touches");
        let hits = Count::new(hits, "hit", "hits");
        let misses = Count::new(misses, "miss", "misses");
        let work = Count::new(work, "cycle", "cycles");
        let choices = Count::new(self.played.choices as u64, "choice", "choices");
        write!(
            f,
            "total {cycles}, {touches}, {hits}, {misses}, {work} of work, {choices}"
        )
    }
}
