// The least opening that is good enough: reads one plan from standard input and writes the smallest opening whose lower survival bound reaches the
// target, with its bounds, or why there is none, to standard output. The target is the one argument.
#![tactic(auto)]

ghost use Rattle.std.specs.Prelude.{◌≤◌, length};

use std::env::{Env, FillError};

// The program's name is counted too. Without a target nothing is read.
fn main(rt: HostRuntime) {
    match argument_count(&rt) {
        0 | 1 => say(&rt, "no target"),
        2 => with_target(&rt),
        _ => say(&rt, "more than one argument"),
    }
}

fn with_target(rt: &HostRuntime) {
    let mut word = io::buffer();
    let n = argument(rt, 1, &mut word);
    match arguments::number_of(&word[..n]) {
        Some(target) => answer(rt, target),
        None => say(rt, "the target is not a number"),
    }
}

// The buffer holds more than the longest plan, so that a longer input is never taken for one. A plan that could not be read has no answer.
fn answer(rt: &HostRuntime, target: u32) {
    let mut bytes = io::buffer();
    let input = streams::read_all(
        &mut rt.stdin(),
        &mut bytes,
        b"least_opening: standard input",
        &mut rt.stderr(),
    );
    if let Ok(read) = input {
        print(rt, &bytes[..read.length], target);
    }
}

fn print(rt: &HostRuntime, bytes: &[u8], target: u32) {
    let mut text = [0u8; quote::TEXT];
    let n = quote::quote(bytes, target, &mut text);
    let _ = streams::write_all(
        &mut rt.stdout(),
        &text[..n],
        b"least_opening: standard output",
        &mut rt.stderr(),
    );
}

// Why there is no target, and how to call the program.
fn say(rt: &HostRuntime, why: &str) {
    let _ = eprintln!(rt;
        "least_opening: {why}; call: least_opening TARGET < PLAN, the target in parts of 2^30 (1 to 1073741824)"
    );
}

// How many arguments there are.
fn argument_count(rt: &HostRuntime) -> usize {
    for i in 0..usize::MAX {
        if let Err(FillError::NotPresent) = rt.arg(i, &mut []) {
            return i;
        }
    }
    usize::MAX
}

// Puts an argument at the start of the buffer, and answers its length; one that is not there, or that the buffer does not hold, comes as an empty one.
fn argument(rt: &HostRuntime, i: usize, buffer: &mut [u8]) -> usize
    ensures { result ≤ length buffer.new }
{
    rt.arg(i, buffer).unwrap_or(0)
}
