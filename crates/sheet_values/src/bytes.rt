// What a sheet's bytes hold, most significant byte first.
ghost use Rattle.std.specs.Prelude.{◌≡◌, cond, ◌+◌, ◌≤◌, eqb, length};
ghost use Rattle.sheet_values.specs.Sheet.{sheet_length, sheet_of, sheet_head};
ghost use Rattle.sheet_values.specs.Sheet.{double as Sheet·double};

use crate::{ChanceRule, Kind, RuleSheet, UnknownKind};
use model::Head;
use numbers::big_endian;

pub const LENGTH: usize = 29;

// Where a sheet's fields start.
pub const KIND: usize = 0;

const MONTHS: usize = 1;

const OPENING: usize = 2;

const SIZES: usize = 3;

pub const FIRST: usize = 5;

pub const STEP: usize = 13;

pub const ALPHA: usize = 21;

pub fn double(bytes: &[u8], at: usize) -> f64
    requires { at + 8 ≤ length bytes.now }
    ensures { result ≡ Sheet·double at bytes.now }
{
    doubles::of_bits(big_endian(bytes, at, 8) as u64)
}

// The rule of a sheet's kind. A number that no kind has, which a sheet's checks turn away, is read as a ramp's: the definition `sheet_rule` has a rule for every
// number, so that this takes the number and not a `Kind`.
fn rule_of(kind: usize, first: f64, step: f64) -> ChanceRule
    ensures { result ≡ cond (eqb kind 1) (ChanceRule.Level first) (ChanceRule.Ramp first step) }
{
    match Kind::try_from(kind) {
        Ok(Kind::Level) => ChanceRule::Level(first),
        Ok(Kind::Ramp) | Err(UnknownKind) => ChanceRule::Ramp(first, step),
    }
}

pub fn sheet_of(bytes: &[u8]) -> RuleSheet
    requires { length bytes.now ≡ sheet_length }
    ensures { result ≡ sheet_of bytes.now }
{
    let kind = big_endian(bytes, KIND, 1);
    let months = big_endian(bytes, MONTHS, 1);
    let opening = big_endian(bytes, OPENING, 1);
    let sizes = big_endian(bytes, SIZES, 2);
    let first = double(bytes, FIRST);
    let step = double(bytes, STEP);
    let alpha = double(bytes, ALPHA);
    let rule = rule_of(kind, first, step);
    RuleSheet {
        rule,
        months,
        opening,
        sizes,
        alpha,
    }
}

// The head of the plan that a sheet makes, which has an income of 1.
pub fn head_of(sheet: RuleSheet) -> Head
    ensures { result ≡ sheet_head sheet }
{
    Head {
        months: sheet.months,
        opening: sheet.opening,
        sizes: sheet.sizes,
        income: 1,
    }
}
