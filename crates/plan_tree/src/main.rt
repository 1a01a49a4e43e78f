// The tree of a small plan: reads one plan from standard input and writes its nodes month by month, each with what its value follows from, or why there are
// none, to standard output. The question is in the arguments, in the report's words; without any it is survive.
#![tactic(auto)]

ghost use Rattle.std.specs.Prelude.{◌≤◌, length};

use model::Question;
use std::env::{Env, FillError};

// The program's name is counted too. Where the arguments are no question nothing is read.
fn main(rt: HostRuntime) {
    let count = argument_count(&rt).saturating_sub(1);
    let mut word = io::buffer();
    let mut number = io::buffer();
    let w = argument(&rt, 1, &mut word);
    let n = argument(&rt, 2, &mut number);
    match arguments::question_of(count, &word[..w], &number[..n]) {
        Some(question) => answer(&rt, question),
        None => say(&rt),
    }
}

// The buffer holds more than the longest plan, so that a longer input is never taken for one. A plan that could not be read has no tree.
fn answer(rt: &HostRuntime, question: Question) {
    let mut bytes = io::buffer();
    let input = streams::read_all(
        &mut rt.stdin(),
        &mut bytes,
        b"plan_tree: standard input",
        &mut rt.stderr(),
    );
    if let Ok(read) = input {
        print(rt, &bytes[..read.length], question);
    }
}

// Part by part, up to one that could not be written.
fn print(rt: &HostRuntime, bytes: &[u8], question: Question) {
    for month in 0..tree_text::PARTS {
        if !print_part(rt, bytes, question, month) {
            return;
        }
    }
}

fn print_part(rt: &HostRuntime, bytes: &[u8], question: Question, month: usize) -> bool {
    let mut text = [0u8; tree_text::TEXT];
    let n = tree_text::tree(bytes, question, month, &mut text);
    streams::write_all(
        &mut rt.stdout(),
        &text[..n],
        b"plan_tree: standard output",
        &mut rt.stderr(),
    )
    .is_ok()
}

// How to call the program.
fn say(rt: &HostRuntime) {
    let _ = eprintln!(rt;
        "plan_tree: not a question; call: plan_tree [survive | both K | high L | low L] < PLAN"
    );
}

// How many arguments there are.
fn argument_count(rt: &HostRuntime) -> usize {
    for i in 0..usize::MAX {
        if let Err(FillError::NotPresent) = rt.arg(i, &mut []) {
            return i;
        }
    }
    usize::MAX
}

// Puts an argument at the start of the buffer, and answers its length; one that is not there, or that the buffer does not hold, comes as an empty one.
fn argument(rt: &HostRuntime, i: usize, buffer: &mut [u8]) -> usize
    ensures { result ≤ length buffer.new }
{
    rt.arg(i, buffer).unwrap_or(0)
}
