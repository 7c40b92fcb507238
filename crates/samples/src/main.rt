// For the gate: shows each file that is named, says of each line of standard input, a listing of its own, what it is,
// and plays the file that a line @FILE CHOICES names.
#![tactic(auto)]

use console::outline::write_outline;
use console::replay::total_of;
use console::source::LARGEST;
use console::trace::Total;
use console::{ChoiceText, Failure, Source, ended};
use std::alloc::{AllocError, Global};
use std::env;
use std::process::ExitCode;

const MOST_CHOICES: usize = 1000;

fn show_file(rt: &HostRuntime, path: String) -> Result<(), Failure> {
    println!(rt; "== {path}")?;
    let program = Source::from_file(rt, LARGEST, path)?.read()?;
    write_outline(rt.stdout(), rt.alloc(), &program)?;
    Ok(())
}

fn judge_text(rt: &HostRuntime, text: &[u8]) -> Result<usize, Failure> {
    let source = Source::from_text(rt.alloc(), LARGEST, "text", text)?;
    let program = source.read()?;
    Ok(program.code().len())
}

// What a file comes to, played by choices.
fn replay_total(rt: &HostRuntime, path: &str, digits: &str) -> Result<Total, Failure> {
    let file = String::from_str(rt.alloc(), path)?;
    let program = Source::from_file(rt, LARGEST, file)?.read()?;
    let text = ChoiceText::from_text(rt.alloc(), MOST_CHOICES, digits)?;
    let choices = text.choices();
    total_of(&program, choices).map_err(|error| Failure::Play {
        file: program.name,
        given: choices.len(),
        error,
    })
}

fn judge_replay(rt: &HostRuntime, words: &str) -> Result<(), Failure> {
    let (path, digits) = words.split_once(' ').unwrap_or((words, ""));
    print!(rt; "{path} by '{digits}': ")?;
    match replay_total(rt, path, digits) {
        Ok(total) => println!(rt; "{total}")?,
        Err(failure) => println!(rt; "{failure}")?,
    }
    Ok(())
}

fn judge_line(rt: &HostRuntime, number: usize, text: &[u8]) -> Result<(), Failure> {
    match judge_text(rt, text) {
        Ok(words) => println!(rt; "{number:>3}  a program, words: {words}")?,
        Err(failure) => println!(rt; "{number:>3}  {failure}")?,
    }
    Ok(())
}

// A cache, and so many twos of nothing, each the second of the one before.
fn chain(heap: Global, twos: u32) -> Result<Vec<u8>, AllocError> {
    let mut text = Vec::new(heap);
    text.extend_from_slice(b"1 2 1 1 10 1 ")?;
    for _ in 0..twos {
        text.extend_from_slice(b"2 5 ")?;
    }
    text.extend_from_slice(b"5")?;
    Ok(text)
}

fn run(rt: &HostRuntime) -> Result<(), Failure> {
    for path in env::args(rt)?.skip(1) {
        show_file(rt, path)?;
    }
    println!(rt; "== a chain of 500000 twos")?;
    judge_line(rt, 1, chain(rt.alloc(), 500000)?.as_slice())?;
    println!(rt; "== lines")?;
    let mut number: usize = 0;
    for line in rt.lines(rt.alloc()) {
        let line = line?;
        match line.as_str().strip_prefix('@') {
            Some(words) => judge_replay(rt, words)?,
            None => {
                number = number.saturating_add(1);
                judge_line(rt, number, line.as_bytes())?;
            }
        }
    }
    Ok(())
}

fn main(rt: HostRuntime) -> ExitCode {
    ended(&rt, "samples", run(&rt))
}
