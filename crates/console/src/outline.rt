ghost use Rattle.std.specs.Prelude.{◌≡◌, ◌+◌, ◌≤◌, length, vec_len, OnOk};

use crate::failure::Failure;
use crate::source::Program;
use cycles::node::{Node, first_node};
use std::alloc::{AllocError, Global};
use std::io;
use std::io::{BufWriter, Write};

// What is to be written next: the program that the words go on with, or what stands between and behind its parts.
#[derive(Clone, Copy, PartialEq, Eq, Debug)]
enum Task {
    Node,
    Or,
    Close,
}

// What comes behind a node, the first of it last, so that it is taken off first.
fn plan(node: Node<'_>) -> &'static [Task]
    ensures { length result.now ≤ 4 }
{
    match node {
        Node::Seq => &[Task::Node, Task::Node],
        Node::Either => &[Task::Close, Task::Node, Task::Or, Task::Node],
        Node::Loop(_) => &[Task::Close, Task::Node],
        Node::Work(_) | Node::Touch { .. } | Node::Skip => &[],
    }
}

// Puts tasks on the list, one by one: they are so few that to copy them at once takes longer.
fn put(tasks: &mut Vec<Task>, more: &[Task]) -> Result<(), AllocError>
    ensures { OnOk result (vec_len tasks.new ≡ vec_len tasks.old + length more.now) }
{
    for task in more {
        tasks.push(*task)?;
    }
    Ok(())
}

// Blanks are written in pieces of these.
const BLANKS: [u8; 64] = [b' '; 64];

fn write_blanks<W: Write>(out: &mut W, columns: usize) -> io::Result<()> {
    for _ in 0..columns / BLANKS.len() {
        out.write_all(&BLANKS)?;
    }
    let rest = columns % BLANKS.len();
    if rest > 0 {
        out.write_all(&BLANKS[..rest])?;
    }
    Ok(())
}

// A line of a fixed text, its newline with it: as a format it would take twice as long.
fn write_line<W: Write>(out: &mut W, indent: usize, line: &str) -> io::Result<()> {
    // At the margin, where long chains stand, a line is one write.
    if indent > 0 {
        write_blanks(out, indent)?;
    }
    out.write_all(line.as_bytes())
}

// One node, without the programs that it holds; of two in turn nothing is to be seen.
fn write_node<W: Write>(out: &mut W, indent: usize, node: Node<'_>) -> io::Result<()> {
    match node {
        Node::Seq => Ok(()),
        Node::Skip => write_line(out, indent, "skip\n"),
        Node::Either => write_line(out, indent, "either {\n"),
        Node::Loop(_) => {
            write_blanks(out, indent)?;
            writeln!(out, "{node} {{")
        }
        Node::Work(_) | Node::Touch { .. } => {
            write_blanks(out, indent)?;
            writeln!(out, "{node}")
        }
    }
}

// The program that the words begin with, a node to a line, each two columns deeper than what holds it; of two in turn nothing is to be seen.
// What is to come stands in a list, since any words may be given, however deep.
pub fn write_program<W: Write>(out: &mut W, heap: Global, words: &[u32]) -> Result<(), Failure> {
    let mut tasks = vec![in heap; Task::Node]?;
    let mut rest = words;
    let mut indent: usize = 0;
    while let Some(task) = tasks.pop() {
        match task {
            Task::Node => {
                let Ok(node) = first_node(rest) else {
                    return Ok(());
                };
                rest = &rest[node.size()..];
                write_node(out, indent, node)?;
                put(&mut tasks, plan(node))?;
                if let Node::Either | Node::Loop(_) = node {
                    indent = indent.saturating_add(2);
                }
            }
            Task::Or => write_line(out, indent.saturating_sub(2), "} or {\n")?,
            Task::Close => {
                indent = indent.saturating_sub(2);
                write_line(out, indent, "}\n")?;
            }
        }
    }
    Ok(())
}

// Writes the cache and the program.
pub fn write_outline<W: Write + Drop>(
    out: W,
    heap: Global,
    program: &Program,
) -> Result<(), Failure> {
    let mut out = BufWriter::new(heap, out)?;
    writeln!(out, "{}", program.cache)?;
    write_program(&mut out, heap, program.code())?;
    out.flush()?;
    Ok(())
}

#[cfg(test)]
mod tests {
    use super::*;
    use crate::source::{Room, Source};
    use std::test::Fail;

    const OUTLINE: &str = "cache sets 1 ways 2 line 1 hit 1 miss 10 lru
loop 3 {
  either {
    work 7
  } or {
    touch 5 step 1
  }
}
skip
";

    #[test]
    fn shows_a_program(rt: HostRuntime) -> Result<(), Fail> {
        let room = Room {
            words: 32,
            marks: 32,
        };
        let words = b"1 2 1 1 10 1 2 4 3 3 0 7 1 5 1 1 5";
        let program = Source::from_text(rt.alloc(), room, "loop", words)?.read()?;
        let mut shown = Vec::new(rt.alloc());
        write_outline(&mut shown, rt.alloc(), &program)?;
        assert_eq!(rt; shown.as_slice(), OUTLINE.as_bytes());
        Ok(())
    }
}
