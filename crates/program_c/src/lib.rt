// The crank program for a main that is not Rattle's. The three streams take no bytes, so C passes nothing for them and
// declares uint32_t crank_program(size_t words).
#![tactic(auto)]

ghost use Rattle.program.specs.Program.{Exit};

use std::rt::{Stderr, Stdin, Stdout};

#[unsafe(no_mangle)]
pub extern "C" fn crank_program(words: usize, input: Stdin, output: Stdout, errors: Stderr) -> u32
    ensures { Exit words result }
{
    let mut input = input;
    let mut output = output;
    let mut errors = errors;
    program::run(words, &mut input, &mut output, &mut errors)
}
