// Values rounded either way, in plain machine arithmetic: a quotient by the scale, two values mixed by a chance, a value of the month rule.
#![tactic(auto)]

ghost use Rattle.std.specs.Prelude.{◌≡◌, ◌+◌, ◌*◌, ◌-◌, ◌<◌, ◌≤◌};
ghost use Rattle.model.specs.Scale.{S, quotient};

use model::{Rounding, WIDE_SCALE};

// A quotient by the scale. A cast narrows it: it is proved to fit, and `TryFrom` would add an error that never comes.
pub fn divide(x: u64, round: Rounding) -> u32
    requires { x ≤ S * S }
    ensures { result ≡ quotient round x S }
{
    match round {
        Rounding::Down => (x / WIDE_SCALE) as u32,
        Rounding::Up => ((x + (WIDE_SCALE - 1)) / WIDE_SCALE) as u32,
    }
}

// One number with this chance and another otherwise, in parts of the scale.
fn weighted_sum(chance: u32, otherwise: u64, then: u64) -> u64
    requires { (chance ≤ S) × (otherwise ≤ S) × (then ≤ S) }
    ensures { result ≡ (S - chance) * otherwise + chance * then }
{
    let p = u64::from(chance);
    (WIDE_SCALE - p) * otherwise + p * then
}

// The same of two values, as a value.
pub fn mixture(chance: u32, otherwise: u32, then: u32, round: Rounding) -> u32
    requires { (chance ≤ S) × (otherwise ≤ S) × (then ≤ S) }
    ensures { result ≡ quotient round ((S - chance) * otherwise + chance * then) S }
{
    divide(
        weighted_sum(chance, u64::from(otherwise), u64::from(then)),
        round,
    )
}

// The value before a month with this chance, from the value with no claim and the claim sum's quotient by the scale and what is left over: rounded once,
// although each division here is by the scale alone.
pub fn month_value(chance: u32, quiet: u32, claimed: u64, left: u64, round: Rounding) -> u32
    requires { (chance ≤ S) × (quiet ≤ S) × (claimed * S + left ≤ S * S) × (left < S) }
    ensures { result ≡ quotient round ((S - chance) * S * quiet + chance * (claimed * S + left)) (S * S) }
{
    let p = u64::from(chance);
    let carried = u64::from(divide(p * left, round));
    divide(
        weighted_sum(chance, u64::from(quiet), claimed) + carried,
        round,
    )
}
