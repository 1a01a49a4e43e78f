// Reads and writes where that fails, and where it does not: a line for each on standard output, with what `streams` answered, and after it what was
// said on standard error meanwhile. A file stands in place of standard error.
#![tactic(auto)]

use std::fs;
use std::fs::File;
use std::io::{Read, Result};
use streams::Reach;

// What stands in place of standard error, and what reads it.
#[derive(Drop)]
struct Errors {
    written: File,
    read: File,
}

fn main(rt: HostRuntime) -> Result<()> {
    let Ok(written) = File::create_new(&rt, "errors") else {
        return println!(rt; "no file in place of standard error");
    };
    let read = File::open(&rt, "errors")?;
    let mut errors = Errors { written, read };
    reads(&rt, &mut errors)?;
    writes(&rt, &mut errors)?;
    fs::remove_file(&rt, "errors")
}

// What is open for writing alone is not open for reading.
fn reads(rt: &HostRuntime, errors: &mut Errors) -> Result<()> {
    read(rt, "nothing open", File::create(rt, "/dev/null")?, errors)?;
    read(rt, "a folder", File::open(rt, ".")?, errors)?;
    read(rt, "an empty input", File::open(rt, "/dev/null")?, errors)?;
    read(rt, "an endless input", File::open(rt, "/dev/zero")?, errors)
}

// What is open for reading alone is not open for writing. What was written to a file is read back.
fn writes(rt: &HostRuntime, errors: &mut Errors) -> Result<()> {
    write(rt, "nothing open", File::open(rt, "/dev/null")?, errors)?;
    write(rt, "a full disk", File::create(rt, "/dev/full")?, errors)?;
    write(rt, "a sink", File::create(rt, "/dev/null")?, errors)?;
    write(rt, "a file", File::create_new(rt, "report")?, errors)?;
    read(rt, "the file", File::open(rt, "report")?, errors)?;
    fs::remove_file(rt, "report")
}

fn read(rt: &HostRuntime, what: &str, mut file: File, errors: &mut Errors) -> Result<()> {
    let mut bytes = [0u8; 4096];
    let input = streams::read_all(&mut file, &mut bytes, what.as_bytes(), &mut errors.written);
    print!(rt; "read ")?;
    answer(rt, what, input, errors)
}

fn write(rt: &HostRuntime, what: &str, mut file: File, errors: &mut Errors) -> Result<()> {
    let output = streams::write_all(
        &mut file,
        b"a report\n",
        what.as_bytes(),
        &mut errors.written,
    );
    print!(rt; "write ")?;
    answer(rt, what, output, errors)
}

fn answer(
    rt: &HostRuntime,
    what: &str,
    moved: std::result::Result<Reach, Reach>,
    errors: &mut Errors,
) -> Result<()> {
    match moved {
        Ok(reach) => println!(rt; "{what}: went well, bytes {}", reach.length)?,
        Err(reach) => println!(rt; "{what}: failed, bytes {}", reach.length)?,
    }
    said(rt, errors)
}

// What standard error has more than before.
fn said(rt: &HostRuntime, errors: &mut Errors) -> Result<()> {
    let mut lines = String::new(rt.alloc());
    errors.read.read_to_string(&mut lines)?;
    if !lines.is_empty() {
        print!(rt; "said {lines}")?;
    }
    Ok(())
}
