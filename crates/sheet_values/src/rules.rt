// The chances and weights that a sheet's rules make, and the plan's row of them.
ghost use Rattle.std.specs.Prelude.{◌≡◌, true, false, not, ◌-◌, ◌≤◌, ◌<◌, length};
ghost use Rattle.model.specs.Limits.{max_months, max_sizes};
ghost use Rattle.model.specs.Sums.{one_to, total, any};
ghost use Rattle.model.specs.Plan.{row_length};
ghost use Rattle.doubles.specs.Doubles.{within};
ghost use Rattle.sheet_values.specs.Sheet.{sheet_head};
ghost use Rattle.sheet_values.specs.Rules.{chances, weights, size_part, sheet_row};
ghost use Rattle.sheet_values.specs.Terms.{MakesPlan};
ghost use Rattle.sheet_values.specs.Rules.{chance as Rules·chance};

use crate::{ChanceRule, RuleSheet};
use doubles::{is_within, parts};
use model::{SCALE, limits};

// The chance of a month, counted from 1: the product is rounded, and then the sum.
fn chance(rule: ChanceRule, month: usize) -> f64
    requires { (0 < month) × (month ≤ max_months) }
    ensures { result ≡ Rules·chance rule month }
{
    match rule {
        ChanceRule::Level(first) => first,
        ChanceRule::Ramp(first, step) => first + (month - 1) as f64 * step,
    }
}

// Whether the chance of some month is not in 0 to 1.
pub fn some_outside(rule: ChanceRule, months: usize) -> bool
    requires { months ≤ max_months }
    ensures { result ≡ any (λ i. not (within (Rules·chance rule i))) (one_to months) }
{
    (0..months).any(|passed| !is_within(chance(rule, passed + 1)))
}

// The sum of the weights of all sizes.
pub fn weights_total(alpha: f64, sizes: usize) -> u64
    requires { (within alpha ≡ true) × (sizes ≤ max_sizes) }
    ensures { result ≡ total (weights alpha sizes) }
{
    let mut row = [0; limits::SIZES];
    let weights = &mut row[..sizes];
    put_weights(alpha, weights);
    weights.iter().map(|x| u64::from(*x)).sum()
}

fn put_chances(rule: ChanceRule, row: &mut [u32])
    requires row_len_bound { length row.old ≤ max_months }
    requires row_value { any (λ i. not (within (Rules·chance rule i))) (one_to (length row.old)) ≡ false }
    ensures { row.new ≡ chances rule (length row.old) }
{
    for (i, place) in row.iter_mut().enumerate() {
        *place = parts(chance(rule, i + 1));
    }
}

fn put_weights(alpha: f64, row: &mut [u32])
    requires { within alpha ≡ true }
    ensures { row.new ≡ weights alpha (length row.old) }
{
    let mut weight = 1.0 - alpha;
    for place in row.iter_mut() {
        *place = parts(weight);
        weight *= alpha;
    }
}

// The weights of all sizes but for the row's last number, which takes what they leave of the scale.
fn put_sizes(alpha: f64, row: &mut [u32])
    requires { (0 < length row.old) × (length row.old - 1 ≤ max_sizes) × (within alpha ≡ true) }
    ensures { row.new ≡ size_part alpha (length row.old - 1) }
{
    let sizes = row.len() - 1;
    put_weights(alpha, &mut row[..sizes]);
    // Proved to fit: TryFrom would add an error that never comes.
    row[sizes] = SCALE - weights_total(alpha, sizes) as u32;
}

// The plan's row: chances, weights, tail.
pub fn put_row(sheet: RuleSheet, row: &mut [u32])
    requires makes_plan { MakesPlan sheet }
    requires row_len { length row.old ≡ row_length (sheet_head sheet) }
    ensures { row.new ≡ sheet_row sheet }
{
    let rule = sheet.rule;
    let months = sheet.months;
    put_chances(rule, &mut row[..months]);
    put_sizes(sheet.alpha, &mut row[months..]);
}
