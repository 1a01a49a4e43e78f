// Two bounds as decimal numbers with 7 places, which the published model's are held to.
ghost use Rattle.std.specs.Prelude.{◌≡◌};
ghost use Rattle.test_mixtures.specs.Rounded.{ten_millionths};

use crate::STDOUT_FILENO;
use model::{Bounds, Refusal, WIDE_SCALE};

// One in ten-millionths, and the first of its 7 places.
const ONE: u64 = 10000000;

const TENTH: u64 = ONE / 10;

// Of a refusal both are 0.
pub fn line(answer: Result<Bounds, Refusal>) {
    match answer {
        Ok(bounds) => figures(bounds.lower, bounds.upper),
        Err(_) => figures(0, 0),
    }
}

fn figures(lower: u32, upper: u32) {
    print(rounded(lower));
    io::write_all(STDOUT_FILENO, b" ");
    print(rounded(upper));
    io::write_all(STDOUT_FILENO, b"\n");
}

// Parts of the scale in ten-millionths, to the nearest.
fn rounded(x: u32) -> u64
    ensures { result ≡ ten_millionths x }
{
    (u64::from(x) * ONE + WIDE_SCALE / 2) / WIDE_SCALE
}

fn print(figure: u64) {
    io::print_decimal(STDOUT_FILENO, figure / ONE);
    io::write_all(STDOUT_FILENO, b".");
    // By tens and not by an index, so that no `for` is plainer.
    let mut place = TENTH;
    while place > 0 {
        io::print_decimal(STDOUT_FILENO, figure / place % 10);
        place /= 10;
    }
}
