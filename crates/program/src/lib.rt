// What the crank program does: it reads an image from standard input, turns forward until refused or LIMIT
// turns, and prints the turns, the refusal and the record. What it reads, the arrays that it lends and what
// it prints are tested; what is done with them is proved. The reader and the writers are its caller's: a main
// passes the process's own.
#![tactic(auto)]

ghost use Rattle.std.specs.Prelude.{◌≡◌, ◌≤◌, length};
ghost use Rattle.word.specs.Refusal.{number};
ghost use Rattle.program.specs.Program.{turns_in, ProgramPromise, status_of, status_in, Ran, Exit};

use machine::{Batch, Record};
use std::fmt;
use std::fmt::Display;
use std::io::{Read, Write};
use word::refusals::Refusal;

// The most turns that are made.
const LIMIT: u32 = 1000000;
// One byte more than an image may have, so that a longer input shows.
const ROOM: usize = 65537;
// The most words of memory.
const WORDS: usize = Record::MAX_WORDS as usize;

// How a run ends, in the order of the exit statuses: `as u32` gives the one.
#[derive(Clone, Copy, Debug, PartialEq, Eq)]
enum Ending {
    Done,
    LoadRefused,
    HasArguments,
    NotWritten,
}

impl Ending {
    #[tactic(auto, unfolding(word::specs::Refusal::refuse))]
    fn of(answer: Result<Batch, Refusal>, is_written: bool) -> Ending
        ensures { status_in result ≡ status_of (number answer) is_written }
    {
        match answer {
            _ if !is_written => Ending::NotWritten,
            Ok(_) => Ending::Done,
            Err(_) => Ending::LoadRefused,
        }
    }
}

// Loads the file and turns it; load's refusal. Memory and table are lent apart, as to every call.
fn turn_image(file: &[u8], mem: &mut [u32], table: &mut [u32]) -> Result<Batch, Refusal>
    ensures { ProgramPromise file.now mem.old table.old (number result) (turns_in result) mem.new table.new }
{
    let r = image::load(file, mem, table)?;
    Ok(r.forward_batch(LIMIT, mem, table))
}

// Reads until buf is full or the input ends, and answers what was read. A read that fails counts as the end.
fn read_full<'a>(input: &mut impl Read, buf: &'a mut [u8]) -> &'a [u8]
    ensures { length result.now ≤ length buf.old }
{
    let mut done = 0;
    // Each read gives a byte at least. By count: read_exact says nothing of what was read before an end.
    for _ in 0..buf.len() {
        match input.read(&mut buf[done..]) {
            Ok(n) if n > 0 => done += n,
            _ => break,
        }
        if done == buf.len() {
            break;
        }
    }
    &buf[..done]
}

// What the program prints.
#[derive(Clone, Copy)]
struct Report(Result<Batch, Refusal>);

impl Display for Report {
    fn fmt<W: fmt::Write>(&self, f: &mut fmt::Formatter<W>) -> fmt::Result {
        match self.0 {
            Ok(batch) => {
                let r = batch.state;
                writeln!(f, "turns {} refusal {}", batch.turns, batch.refusal)?;
                write!(f, "{}", r.regs[0])?;
                for x in &r.regs[1..] {
                    write!(f, " {x}")?;
                }
                // a write of its own: a pipe may have room for the line end and for no more
                writeln!(f)?;
                writeln!(f, "node {} wait {}", r.qifv, r.qifw)
            }
            Err(refusal) => writeln!(f, "refusal {}", refusal.number()),
        }
    }
}

fn refuse_arguments(errors: &mut impl Write) -> Ending
    ensures { status_in result ≡ 2 }
{
    let _ = writeln!(
        errors,
        "crank: takes no arguments; give it an image by crank < IMAGE"
    );
    Ending::HasArguments
}

// Reads, turns and prints. The three streams are those that the caller's main has, each of its own type.
fn turn_input(input: &mut impl Read, output: &mut impl Write, errors: &mut impl Write) -> Ending
    ensures { Ran (status_in result) }
{
    // arrays of a fixed size, since no heap is used
    let mut file = [0u8; ROOM];
    let mut mem = [0u32; WORDS];
    let mut table = [0u32; Record::MAX_LINKS];
    let answer = turn_image(read_full(input, &mut file), &mut mem, &mut table);
    let is_written = write!(output, "{}", Report(answer)).is_ok();
    if !is_written {
        let _ = writeln!(errors, "crank: standard output can't be written");
    }
    Ending::of(answer, is_written)
}

// The program, given the number of words of its command line, its own name among them, and its standard input,
// output and error. Answers the exit status, as a number since it goes to C.
pub fn run(
    words: usize,
    input: &mut impl Read,
    output: &mut impl Write,
    errors: &mut impl Write,
) -> u32
    ensures { Exit words result }
{
    let ending = if words > 1 {
        refuse_arguments(errors)
    } else {
        turn_input(input, output, errors)
    };
    ending as u32
}
