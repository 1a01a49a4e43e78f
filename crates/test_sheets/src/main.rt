// Holds the calls on rule sheets to expected values: reads a list of calls from standard input and writes what each answered and left in lent memory.
// docs/src/records.py says how the list is laid out; docs/src/reference.py writes it and the lines expected.
#![tactic(auto)]

mod calls;

use numbers::big_endian;

// The descriptors that every program is started with.
const STDIN_FILENO: i32 = 0;

const STDOUT_FILENO: i32 = 1;

// A proved loop has to end, and nothing says that the input does, so the calls are counted.
fn main() {
    for _ in 0..u64::MAX {
        if !next_call() {
            return;
        }
    }
}

// Whether there was a call: its kind, the room that it is lent, and the length of the sheet, which follows.
fn next_call() -> bool {
    let mut start = [0u8; 5];
    if io::read_full(STDIN_FILENO, &mut start) < 5 {
        return false;
    }
    let room = big_endian(&start, 1, 2);
    let length = big_endian(&start, 3, 2);
    let mut bytes = io::buffer();
    if bytes.len() < length {
        return false;
    }
    read_sheet(start[0], room, &mut bytes[..length]);
    true
}

// The kind is a byte of the list, matched here and nowhere else, so that an enum with a conversion from it would be no plainer.
fn read_sheet(kind: u8, room: usize, bytes: &mut [u8]) {
    io::read_full(STDIN_FILENO, bytes);
    match kind {
        0 => calls::read(room, bytes),
        1 => calls::write_plan(room, bytes),
        _ => calls::report(bytes),
    }
}
