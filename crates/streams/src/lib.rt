// Streams read and written whole by the programs. Where reading or writing fails, one line on the errors' writer, standard error, says of what, and why;
// otherwise nothing is written there. Of that line no contract can speak, nor of what the system gives and takes: `test_failures` holds both to expected
// lines. Each line stands in one branch with the `Err` that it goes with, so that the contract holds the test of the branch.
#![tactic(auto)]

ghost use Rattle.std.specs.Prelude.{◌≡◌, not, eqb, length, is_ok, is_err};
ghost use Rattle.std.specs.Int.Signed.{non_neg};
ghost use Rattle.io.specs.Counts.{IsPrefixLen};
ghost use Rattle.streams.specs.Reached.{Reached, reach_of, answer_of};

use std::io::{Cursor, Error, Read, Write};

// How far a stream was read or written: so many bytes, and how many of them the system moved last, none where it failed, 0 where it was asked nothing.
#[derive(Clone, Copy)]
pub struct Reach {
    pub length: usize,
    pub last: Option<usize>,
}

// Reads until the buffer is full, the input ends or a read fails. `within` is for a caller that takes the first bytes of the buffer.
// Not one function with `write_all`: that lends its bytes to be read, and fails where it ends short, so that only the loop's test would be shared.
pub fn read_all<R: Read, E: Write>(
    reader: &mut R,
    buffer: &mut [u8],
    what: &[u8],
    errors: &mut E,
) -> Result<Reach, Reach>
    ensures within { IsPrefixLen (reach_of result).length buffer.new }
    ensures reached { Reached (length buffer.new) (reach_of result).length (answer_of (reach_of result).last) }
    ensures failed { is_err result ≡ not (non_neg (answer_of (reach_of result).last)) }
{
    let mut length = 0;
    let mut last = Some(0);
    // A turn goes as far as the system read, so that no `for` goes over them; std's `read_exact` does not say how far it came, as `reached` does.
    while length < buffer.len() {
        match reader.read(&mut buffer[length..]) {
            Ok(more) => {
                length += more;
                last = Some(more);
                if more == 0 {
                    return Ok(Reach { length, last });
                }
            }
            Err(error) => {
                fail(errors, what, error);
                return Err(Reach { length, last: None });
            }
        }
    }
    Ok(Reach { length, last })
}

// Writes until all of the text is written or the system takes nothing of what is left.
pub fn write_all<W: Write, E: Write>(
    writer: &mut W,
    text: &[u8],
    what: &[u8],
    errors: &mut E,
) -> Result<Reach, Reach>
    ensures reached { Reached (length text.now) (reach_of result).length (answer_of (reach_of result).last) }
    ensures whole { is_ok result ≡ eqb (reach_of result).length (length text.now) }
{
    let mut written = 0;
    let mut last = Some(0);
    let mut why = Error::from_raw_os_error(0);
    // A turn goes as far as the system wrote, so that no `for` goes over them; std's `write_all` does not say how far it came, as `reached` does.
    while written < text.len() {
        match writer.write(&text[written..]) {
            Ok(taken) => {
                written += taken;
                last = Some(taken);
                if taken == 0 {
                    break;
                }
            }
            Err(error) => {
                why = error;
                last = None;
                break;
            }
        }
    }
    let reach = Reach {
        length: written,
        last,
    };
    if written < text.len() {
        fail(errors, what, why);
        return Err(reach);
    }
    Ok(reach)
}

// The line: what failed, a colon and why, in the system's words. Where it cannot be written there is no place left to say so.
fn fail<E: Write>(errors: &mut E, what: &[u8], error: Error) {
    let mut words = Cursor::new([0u8; 128]);
    let _ = write!(words, "{error}");
    let text = words.into_inner();
    let n = reason_length(&text);
    let _ = errors.write_all(what);
    let _ = errors.write_all(b": ");
    let _ = errors.write_all(&text[..n]);
    let _ = errors.write_all(b"\n");
}

// How many bytes come before the number of the system's error, or before the zeros that end the text.
fn reason_length(text: &[u8]) -> usize
    ensures { IsPrefixLen result text.now }
{
    for i in 0..text.len() {
        if text[i] == 0 || text[i..].starts_with(b" (os error ") {
            return i;
        }
    }
    text.len()
}
