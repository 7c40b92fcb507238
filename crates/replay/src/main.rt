// `replay FILE` plays the program in FILE by choices from standard input, and shows each touch.
#![tactic(auto)]

use console::arguments::{Request, asked};
use console::replay::{total_of, write_trace};
use console::{ChoiceText, Failure, Room, Source, ended};
use std::io::BufWriter;
use std::process::ExitCode;

// With the choices, a byte each, the cells and the buffers, less than 4 MiB.
const ROOM: Room = Room {
    words: 393216,
    marks: 786432,
};

const MOST_CHOICES: usize = 2400000;

const HELP: &str = "usage: replay [--total] FILE

Plays the program in FILE by the choices on standard input, from an empty cache, and
shows each touch: the cycle at which it begins, its cycles, whether it hits or misses,
its address, its line, its set, and the line that it evicts. Works are lines of their own.

The choices are digits, 1 for the first branch of an either and 0 for the second;
white space between them is ignored. FILE is as for wcet: 'wcet --help' tells its form.

  --total  shows the last line alone: all cycles, and the counts
  --help   shows this text

With too few choices, choices left over, or a FILE that is no program, a message says
so, nothing is written to standard output, and the exit status is 1.
";

fn replay(rt: &HostRuntime, file: String, total_alone: bool) -> Result<(), Failure> {
    let program = Source::from_file(rt, ROOM, file)?.read()?;
    let text = ChoiceText::from_stdin(rt, MOST_CHOICES)?;
    let choices = text.choices();
    // First, so that nothing is shown of a play that does not come to its end.
    let total = match total_of(&program, choices) {
        Ok(total) => total,
        Err(error) => {
            return Err(Failure::Play {
                file: program.name,
                given: choices.len(),
                error,
            });
        }
    };
    if !total_alone {
        let out = BufWriter::new(rt.alloc(), rt.stdout())?;
        write_trace(out, &program, choices)?;
    }
    println!(rt; "{total}")?;
    Ok(())
}

fn run(rt: &HostRuntime) -> Result<(), Failure> {
    match asked(rt, "--total")? {
        Request::Help => print!(rt; "{HELP}")?,
        Request::Run { file, flagged } => replay(rt, file.ok_or(Failure::NoFile)?, flagged)?,
    }
    Ok(())
}

fn main(rt: HostRuntime) -> ExitCode {
    ended(&rt, "replay", run(&rt))
}
