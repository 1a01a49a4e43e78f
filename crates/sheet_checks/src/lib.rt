// When a sheet is turned away, in the order of its checks: the layer below a sheet's calls.
#![tactic(auto)]

ghost use Rattle.std.specs.Prelude.{◌≡◌, true, not, ◌&&◌, ◌||◌, length};
ghost use Rattle.std.specs.Float.Ieee.{lt, ne};
ghost use Rattle.std.specs.Float.Ieee.Scale.{finite};
ghost use Rattle.model.specs.Refusal.{first, refused_with, HeadAccepted};
ghost use Rattle.doubles.specs.Doubles.{nought, one, within};
ghost use Rattle.sheet_values.specs.Sheet.{sheet_length, sheet_of, sheet_head};
ghost use Rattle.sheet_checks.specs.Refusal.{is_level, kind_checks, rule_checks, weight_checks, sheet_checks};

use doubles::is_finite;
use model::{Refusal, SCALE};
use numbers::big_endian;
use plan::check_head;
use plan::lengths::largest_level;
use sheet_values::bytes::double;
use sheet_values::rules::{some_outside, weights_total};
use sheet_values::{ChanceRule, Kind, RuleSheet, UnknownKind, bytes};

// 5 length, 12 kind.
fn check_kind(bytes: &[u8]) -> Result<(), Refusal>
    ensures { refused_with result ≡ first (kind_checks bytes.now) }
{
    if bytes.len() != bytes::LENGTH {
        return Err(Refusal::Length);
    }
    match Kind::try_from(big_endian(bytes, bytes::KIND, 1)) {
        Ok(_) => Ok(()),
        Err(UnknownKind) => Err(Refusal::Kind),
    }
}

fn all_finite(first: f64, step: f64, alpha: f64) -> bool
    ensures { result ≡ (finite first && finite step && finite alpha) }
{
    is_finite(first) && is_finite(step) && is_finite(alpha)
}

// Whether alpha is below 0 or not below 1.
fn alpha_outside(alpha: f64) -> bool
    ensures { result ≡ (lt alpha nought || not (lt alpha one)) }
{
    alpha < 0.0 || !(alpha < 1.0)
}

// Whether a level has a step that is not zero.
fn level_steps(rule: ChanceRule, step: f64) -> bool
    ensures { result ≡ (is_level rule && ne step nought) }
{
    match rule {
        ChanceRule::Level(_) => step != 0.0,
        ChanceRule::Ramp(..) => false,
    }
}

// 13 rule.
fn check_rule(bytes: &[u8]) -> Result<(), Refusal>
    requires bytes_len { length bytes.now ≡ sheet_length }
    requires head_accepted { HeadAccepted (sheet_head (sheet_of bytes.now)) }
    ensures { refused_with result ≡ first (rule_checks bytes.now) }
{
    let sheet = bytes::sheet_of(bytes);
    let first = double(bytes, bytes::FIRST);
    let step = double(bytes, bytes::STEP);
    let alpha = double(bytes, bytes::ALPHA);
    if !all_finite(first, step, alpha) {
        return Err(Refusal::Rule);
    }
    if alpha_outside(alpha) {
        return Err(Refusal::Rule);
    }
    let rule = sheet.rule;
    if level_steps(rule, step) {
        return Err(Refusal::Rule);
    }
    if some_outside(rule, sheet.months) {
        return Err(Refusal::Rule);
    }
    Ok(())
}

// 8 weights, which no sheet should reach, and 9 tail.
fn check_weights(sheet: RuleSheet) -> Result<(), Refusal>
    requires { HeadAccepted (sheet_head sheet) × (within sheet.alpha ≡ true) }
    ensures { refused_with result ≡ first (weight_checks sheet) }
{
    let sizes = sheet.sizes;
    let alpha = sheet.alpha;
    let total = weights_total(alpha, sizes);
    let scale = u64::from(SCALE);
    if scale < total {
        return Err(Refusal::Weights);
    }
    if total < scale && sizes + 1 < largest_level(bytes::head_of(sheet)) {
        return Err(Refusal::Tail);
    }
    Ok(())
}

// The first check that fits a sheet's bytes. That of lent memory comes after these.
pub fn check(bytes: &[u8]) -> Result<(), Refusal>
    ensures { refused_with result ≡ first (sheet_checks bytes.now) }
{
    check_kind(bytes)?;
    let sheet = bytes::sheet_of(bytes);
    check_head(bytes::head_of(sheet))?;
    check_rule(bytes)?;
    check_weights(sheet)
}
