// Holds the calls on mixtures to expected values: reads records from standard input and writes what each asks for. docs/src/records.py says how they are
// laid out; docs/src/reference.py writes them and the text expected.
#![tactic(auto)]

mod calls;
mod figures;
mod output;
mod record;
mod reports;
mod space;

use record::{Kind, Record};

// The descriptors that every program is started with.
const STDIN_FILENO: i32 = 0;

const STDOUT_FILENO: i32 = 1;

// A proved loop has to end, and nothing says that the input does, so the records are counted.
fn main() {
    for _ in 0..u64::MAX {
        if !next_record() {
            return;
        }
    }
}

// Whether there was a record, whole.
fn next_record() -> bool {
    let mut words = [0u8; record::BYTES];
    if io::read_full(STDIN_FILENO, &mut words) < record::BYTES {
        return false;
    }
    answer(record::decode(&words))
}

fn answer(record: Record) -> bool {
    match record.kind {
        Some(Kind::Call | Kind::Model) => calls::read_row(record),
        Some(Kind::Report) => reports::read_bytes(record.length),
        None => false,
    }
}
