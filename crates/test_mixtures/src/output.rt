// The line of a call: the refusal's number or 0, the two bounds, and a checksum of the lent workspace after it.
use crate::STDOUT_FILENO;
use checksums::checksum;
use model::{Bounds, Refusal};

pub fn line(answer: Result<Bounds, Refusal>, workspace: &[u32]) {
    match answer {
        Ok(bounds) => numbers(0, bounds.lower, bounds.upper),
        Err(refusal) => numbers(refusal.number(), 0, 0),
    }
    next(checksum(workspace));
    io::write_all(STDOUT_FILENO, b"\n");
}

fn numbers(refusal: u32, lower: u32, upper: u32) {
    io::print_decimal(STDOUT_FILENO, u64::from(refusal));
    next(u64::from(lower));
    next(u64::from(upper));
}

fn next(x: u64) {
    io::write_all(STDOUT_FILENO, b" ");
    io::print_decimal(STDOUT_FILENO, x);
}
