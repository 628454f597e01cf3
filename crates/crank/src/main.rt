// The crank program. The exit status that `run` answers is lost here; the program that Cargo builds around
// `crank_program` gives it.
#![tactic(auto)]

use std::env::{Env, FillError};

// How many words the command line has, the program's own name among them. No word is copied, so it may be any.
fn count_words(rt: &HostRuntime) -> usize {
    (0..usize::MAX)
        .find(|&i| matches!(rt.arg(i, &mut []), Err(FillError::NotPresent)))
        .unwrap_or(usize::MAX)
}

fn main(rt: HostRuntime) {
    let mut input = rt.stdin();
    let mut output = rt.stdout();
    let mut errors = rt.stderr();
    program::run(count_words(&rt), &mut input, &mut output, &mut errors);
}
