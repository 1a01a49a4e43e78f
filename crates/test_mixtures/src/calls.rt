// One call a record, and its line.
ghost use Rattle.std.specs.Prelude.{◌*◌, ◌≤◌, length};

use crate::record::{Kind, Record};
use crate::{STDIN_FILENO, figures, output, record, space};

// Whether there was room for the row, and all of it in the input.
pub fn read_row(record: Record) -> bool {
    let length = record.length;
    if space::ROW < length {
        return false;
    }
    let mut bytes = space::bytes();
    let mut row = space::row();
    call_over(record, &mut bytes[..4 * length], &mut row[..length])
}

fn call_over(record: Record, bytes: &mut [u8], row: &mut [u32]) -> bool
    requires { 4 * length row.old ≤ length bytes.old }
{
    if io::read_full(STDIN_FILENO, bytes) < bytes.len() {
        return false;
    }
    record::unpack(bytes, row);
    lend(record, row);
    true
}

// Of the workspace the record's room is lent.
fn lend(record: Record, row: &[u32]) {
    let room = record.room;
    let fill = record.fill;
    let mut workspace = space::workspace(fill);
    if room <= space::WORKSPACE {
        call(record, row, &mut workspace[..room]);
    }
}

fn call(record: Record, row: &[u32], workspace: &mut [u32]) {
    let mixture = record.mixture;
    let question = record.question;
    let answer = mixture::ask(mixture, question, row, workspace);
    if record.kind == Some(Kind::Model) {
        figures::line(answer);
    } else {
        output::line(answer, workspace);
    }
}
