// The report of a mix's bytes.
use crate::{STDIN_FILENO, STDOUT_FILENO, space};

// Whether there was room for the bytes, and all of them in the input.
pub fn read_bytes(length: usize) -> bool {
    if space::BYTES < length {
        return false;
    }
    let mut bytes = space::bytes();
    report(&mut bytes[..length])
}

fn report(bytes: &mut [u8]) -> bool {
    if io::read_full(STDIN_FILENO, bytes) < bytes.len() {
        return false;
    }
    print(bytes);
    true
}

fn print(bytes: &[u8]) {
    let mut text = [0u8; mixture_text::TEXT];
    let n = mixture_text::report(bytes, &mut text);
    io::write_all(STDOUT_FILENO, &text[..n]);
}
