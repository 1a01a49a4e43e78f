// The parts of a line of the output, with one space between.
use checksums::checksum;
use model::Refusal;
use model::limits::PLACES;

// What a call answered: 0 for no refusal, and the numbers.
pub fn answered(numbers: &[u64]) {
    io::print_decimal(crate::STDOUT_FILENO, 0);
    for x in numbers {
        next(*x);
    }
}

// What a call refused: the refusal's number, and 0 for each number that it would have answered.
pub fn refused(refusal: Refusal, numbers: usize) {
    io::print_decimal(crate::STDOUT_FILENO, u64::from(refusal.number()));
    for _ in 0..numbers {
        next(0);
    }
}

fn next(x: u64) {
    io::write_all(crate::STDOUT_FILENO, b" ");
    io::print_decimal(crate::STDOUT_FILENO, x);
}

pub fn end() {
    io::write_all(crate::STDOUT_FILENO, b"\n");
}

// Both bounds of each place.
pub fn count_row(lower: &[u32; PLACES], upper: &[u32; PLACES]) {
    for (low, high) in lower.iter().zip(upper) {
        next(u64::from(*low));
        next(u64::from(*high));
    }
}

// Lent bytes, in hexadecimal.
pub fn bytes(memory: &[u8]) {
    for byte in memory {
        io::write_all(crate::STDOUT_FILENO, b" ");
        io::print_hex(crate::STDOUT_FILENO, u64::from(*byte), 2);
    }
}

// Lent numbers, as their checksum.
pub fn memory(numbers: &[u32]) {
    next(checksum(numbers));
}
