ghost use Rattle.console.specs.Totals.{Totals};

use crate::source::Program;
use crate::trace::{HEADER, Printer, Total};
use machine::player::{PlayError, play};
use machine::tally::Tally;
use std::io;
use std::io::Write;

// The ways of the largest cache.
const MOST_CELLS: usize = 512;

// What a play of the program by the choices comes to, or why there is none.
pub fn total_of(program: &Program, choices: &[bool]) -> Result<Total, PlayError>
    ensures { Totals program.now.words.items choices.now result }
{
    let mut cells = [0u32; MOST_CELLS];
    let mut tally = Tally::new();
    let played = play(program.words(), choices, &mut cells, &mut tally)?;
    Ok(Total { played, tally })
}

// Shows each work and touch of a play, as far as it comes.
pub fn write_trace<W: Write + Drop>(
    mut out: W,
    program: &Program,
    choices: &[bool],
) -> io::Result<()> {
    writeln!(out, "{HEADER}")?;
    let mut cells = [0u32; MOST_CELLS];
    let mut printer = Printer::new(out);
    // What it comes to is told by its total.
    let _ = play(program.words(), choices, &mut cells, &mut printer);
    printer.finish()
}

#[cfg(test)]
mod tests {
    use super::*;
    use crate::failure::Failure;
    use crate::source::{Room, Source};
    use machine::player::Played;
    use std::alloc::Global;
    use std::test::Fail;

    const ROOM: Room = Room {
        words: 32,
        marks: 32,
    };

    const ROWS: &str = "       cycle  cycles  what     address        line  set      evicts
           0      10  miss           1           1    0           -
          10      10  miss           0           0    0           -
";

    fn either(heap: Global) -> Result<Program, Failure> {
        let words = b"1 2 1 1 10 1 2 3 1 0 0 1 1 0 1 0 0";
        Source::from_text(heap, ROOM, "either", words)?.read()
    }

    #[test]
    fn shows_a_play(rt: HostRuntime) -> Result<(), Fail> {
        let program = either(rt.alloc())?;
        let Ok(total) = total_of(&program, &[false]) else {
            return Err(Fail::new("no play"));
        };
        let total = total.to_string(rt.alloc())?;
        assert_eq!(rt;
            total.as_str(),
            "total 20 cycles, 2 touches, 0 hits, 2 misses, 0 cycles of work, 1 choice"
        );
        let mut shown = Vec::new(rt.alloc());
        write_trace(&mut shown, &program, &[false])?;
        assert_eq!(rt; shown.as_slice(), ROWS.as_bytes());
        Ok(())
    }

    #[test]
    fn tells_why_there_is_no_play(rt: HostRuntime) -> Result<(), Fail> {
        let program = either(rt.alloc())?;
        let left_over = Played {
            cycles: 20,
            choices: 1,
        };
        assert_eq!(rt;
            total_of(&program, &[false, true, true]),
            Err(PlayError::LeftOver(left_over))
        );
        assert_eq!(rt; total_of(&program, &[]), Err(PlayError::RanOut));
        Ok(())
    }
}
