// Reading and writing plan bytes, each with its line.
use crate::record::Record;
use crate::{record, space, text};
use model::Head;

pub fn write(record: Record, row: &[u32]) {
    let head = record.head;
    let room = record.room;
    let fill = record.fill_byte;
    let mut bytes = record::bytes(fill);
    if room <= space::BYTES {
        write_into(head, row, &mut bytes[..room]);
    }
}

fn write_into(head: Head, row: &[u32], bytes: &mut [u8]) {
    match codec::write(head, row, bytes) {
        // std has no From that makes a usize a u64.
        Ok(length) => text::answered(&[length as u64]),
        Err(refusal) => text::refused(refusal, 1),
    }
    text::bytes(bytes);
    text::end();
}

pub fn read(record: Record) {
    let length = record.length;
    let mut bytes = record::bytes(0);
    if length <= space::BYTES {
        read_from(record, &mut bytes[..length]);
    }
}

// Takes the plan's bytes from the input first.
fn read_from(record: Record, bytes: &mut [u8]) {
    io::read_full(crate::STDIN_FILENO, bytes);
    let room = record.room;
    let fill = record.fill;
    let mut row = record::row(fill);
    if room <= space::ROW {
        read_into(bytes, &mut row[..room]);
    }
}

fn read_into(bytes: &[u8], row: &mut [u32]) {
    match codec::read(bytes, row) {
        Ok(head) => text::answered(&[
            // std has no From that makes a usize a u64.
            head.months as u64,
            head.opening as u64,
            head.sizes as u64,
            head.income as u64,
        ]),
        Err(refusal) => text::refused(refusal, 4),
    }
    text::memory(row);
    text::end();
}
