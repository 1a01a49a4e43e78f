// Holds the calls to expected values: reads a list of calls from standard input and writes a line for each, with what the call answered and
// what it left in lent memory. docs/src/records.py says how the list is laid out; docs/src/reference.py writes it and the lines expected.
#![tactic(auto)]

mod calls;
mod format;
mod openings;
mod record;
mod space;
mod sums;
mod text;

ghost use Rattle.std.specs.Prelude.{◌≡◌, ◌≤◌, length};
ghost use Rattle.test_vectors.specs.Rooms.{used_after};

use record::{Kind, Record};

// The descriptors that every program is started with.
const STDIN_FILENO: i32 = 0;

const STDOUT_FILENO: i32 = 1;

fn main() {
    let mut row = record::row(0);
    play(&mut row);
}

// Each record in turn, up to one of no kind. A proved loop has to end, and nothing says that the input does, so the turns are counted.
fn play(row: &mut [u32]) {
    let mut used = 0;
    for _ in 0..u64::MAX {
        let Some(next) = record::next() else {
            return;
        };
        used = step(next, row, used);
    }
}

// One record, over the row that the last `row` record set; answers the length of the row for the next.
fn step(next: Record, row: &mut [u32], used: usize) -> usize
    requires { used ≤ length row.old }
    ensures used { result ≡ used_after next (length row.old) used }
    ensures within { result ≤ length row.new }
{
    match next.kind {
        Kind::Row => record::read_row(next.length, row),
        _ => {
            calls::call(next, &row[..used]);
            used
        }
    }
}
