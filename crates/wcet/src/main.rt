// `wcet [FILE]` shows the cache and the program that the words of FILE, or of standard input, are.
#![tactic(auto)]

use console::arguments::{Request, asked};
use console::outline::write_outline;
use console::source::LARGEST;
use console::{Failure, Source, ended};
use std::process::ExitCode;

const HELP: &str = "usage: wcet [FILE]

Shows the cache and the program that FILE, or standard input, holds.

FILE is a list of decimal numbers with white space between them; # begins a comment
that goes to the end of its line. The first six numbers are the cache:

  sets (1 to 64), ways (1 to 8), words in a line (1 to 64),
  cycles of a hit, cycles of a miss (below 65536), policy (1 LRU, 0 FIFO)

The others are one program, which is one of these:

  0 N                 work of N cycles
  1 BASE COUNT STEPS  touch of the word at BASE, and COUNT steps: for each loop around,
                      from the innermost, the step times the round that it is in
  2 FIRST SECOND      two programs, one after the other
  3 FIRST SECOND      either of two programs
  4 ROUNDS BODY       so many rounds of a program
  5                   nothing

  --help              shows this text

Where FILE is no program, a message says which word breaks which rule, nothing is
written to standard output, and the exit status is 1.
";

fn show(rt: &HostRuntime, file: Option<String>) -> Result<(), Failure> {
    let source = match file {
        None => Source::from_stdin(rt, LARGEST)?,
        Some(path) => Source::from_file(rt, LARGEST, path)?,
    };
    let program = source.read()?;
    write_outline(rt.stdout(), rt.alloc(), &program)?;
    Ok(())
}

// The flag - says that standard input is read, as it is where no file is named.
fn run(rt: &HostRuntime) -> Result<(), Failure> {
    match asked(rt, "-")? {
        Request::Help => print!(rt; "{HELP}")?,
        Request::Run { file, .. } => show(rt, file)?,
    }
    Ok(())
}

fn main(rt: HostRuntime) -> ExitCode {
    ended(&rt, "wcet", run(&rt))
}
