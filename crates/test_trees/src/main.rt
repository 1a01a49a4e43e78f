// The trees of the plans on standard input, one after another, which the gate holds to those of docs/src/reference.py. A record comes as two bytes with its
// length, most significant first, and its bytes: one for the question, four with its number, and the plan's.
#![tactic(auto)]

use model::Question;
use numbers::big_endian;

// The descriptors that every program is started with.
const STDIN_FILENO: i32 = 0;

const STDOUT_FILENO: i32 = 1;

// What comes before the plan's bytes.
const ASKED: usize = 5;

fn main() {
    let mut records = io::large_buffer();
    let n = io::read_full(STDIN_FILENO, &mut records);
    print_trees(&records[..n]);
}

// A record that is cut off, since the input ends, has no tree. Each turn is as long as its record, so that no `for` goes over them.
fn print_trees(records: &[u8]) {
    let mut at = 0;
    while 2 <= records.len() - at {
        let start = at + 2;
        let length = big_endian(records, at, 2);
        if records.len() - start < length {
            return;
        }
        at = start + length;
        print_record(&records[start..at]);
    }
}

fn print_record(record: &[u8]) {
    if record.len() < ASKED {
        return;
    }
    let number = big_endian(record, 1, 4);
    print_tree(&record[ASKED..], question(record[0], number));
}

// The number is matched here and nowhere else, so that an enum with a conversion from it would be no plainer.
fn question(kind: u8, number: usize) -> Question {
    match kind {
        1 => Question::Both(number),
        2 => Question::High(number),
        3 => Question::Low(number),
        _ => Question::Survive,
    }
}

fn print_tree(plan: &[u8], question: Question) {
    for month in 0..tree_text::PARTS {
        print_part(plan, question, month);
    }
}

fn print_part(plan: &[u8], question: Question, month: usize) {
    let mut text = [0u8; tree_text::TEXT];
    let n = tree_text::tree(plan, question, month, &mut text);
    io::write_all(STDOUT_FILENO, &text[..n]);
}
