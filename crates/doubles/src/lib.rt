// The doubles of a rule sheet: from any bits, tested, and as parts of S, by their bits.
#![tactic(auto)]

ghost use Rattle.std.specs.Prelude.{◌≡◌, true, ◌/◌};
ghost use Rattle.std.specs.Float.{binary64};
ghost use Rattle.std.specs.Float.Ieee.{le, of_bits};
ghost use Rattle.std.specs.Float.Ieee.Scale.{finite};
ghost use Rattle.std.specs.Float.Ieee.Positive.{num, den};
ghost use Rattle.doubles.specs.Doubles.{nought, scale, within, parts as Doubles·parts};

use std::num::f64_from_bits_with_nan;

// The weight of a pattern's exponent, and the exponent of 1.
const UNIT: u64 = 1 << 52;

const ONE: u64 = 1023;

// The double of a pattern of bits, whatever it is, a NaN's too.
pub fn of_bits(bits: u64) -> f64
    ensures { result ≡ of_bits binary64 bits }
{
    f64_from_bits_with_nan(bits)
}

// Whether x is neither a NaN nor an infinity.
pub fn is_finite(x: f64) -> bool
    ensures { result ≡ finite x }
{
    x.is_finite()
}

// Whether x lies in 0 to 1.
pub fn is_within(x: f64) -> bool
    ensures { result ≡ within x }
{
    0.0 <= x && x <= 1.0
}

// x in parts of S: its product with 2^30, which is exact, rounded down.
pub fn parts(x: f64) -> u32
    requires { within x ≡ true }
    ensures { result ≡ Doubles·parts x }
{
    rounded_down(x * 1073741824.0)
}

// x, in 0 to 2^30, rounded down from its bits, whatever the sign of a zero. Its digits, the leading one among them, count 2^(exponent - 1075) each.
// Below the exponent of 1 x is less than 1; the largest is that of 2^30, 1053. Document 01 binds this form, from the double's bits by a function of our own, so
// that the library's conversion does not stand here.
fn rounded_down(x: f64) -> u32
    requires { (le nought x ≡ true) × (le x scale ≡ true) }
    ensures { result ≡ num x / den x }
{
    let bits = x.to_bits();
    let exponent: u64 = (bits >> 52) % 2048;
    if exponent < ONE {
        return 0;
    }
    let digits = UNIT + bits % UNIT;
    (digits >> (1075 - exponent)) as u32
}
