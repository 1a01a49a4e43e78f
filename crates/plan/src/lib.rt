// The checks of a plan in memory, in the order of the table of documents 01 and 02: one function for asking, counting, reading and writing.
#![tactic(auto)]

pub mod lengths;

ghost use Rattle.std.specs.Prelude.{◌≡◌, ◌≤◌, ◌^◌, ltb, length};
ghost use Rattle.model.specs.Sums.{total, any};
ghost use Rattle.model.specs.Refusal.{first, refused_with, head_checks, plan_refusal};

use crate::lengths::{largest_level, row_length};
use model::{Head, Refusal, SCALE, limits};

// 2 horizon, 3 opening, 4 sizes, then 16 income and 17 span.
pub fn check_head(head: Head) -> Result<(), Refusal>
    ensures { refused_with result ≡ first (head_checks head) }
{
    if limits::MONTHS < head.months {
        return Err(Refusal::Horizon);
    }
    if limits::OPENING < head.opening {
        return Err(Refusal::Opening);
    }
    if head.sizes == 0 || limits::SIZES < head.sizes {
        return Err(Refusal::Sizes);
    }
    if head.income == 0 || limits::INCOME < head.income {
        return Err(Refusal::Income);
    }
    if limits::SPAN < largest_level(head) {
        return Err(Refusal::Span);
    }
    Ok(())
}

// Whether some number of the row is above the limit.
fn some_above(row: &[u32], limit: u32) -> bool
    ensures { result ≡ any (ltb limit) row.now }
{
    row.iter().any(|x| limit < *x)
}

// The sum of a row's numbers, or of other numbers that are few enough for it to fit.
pub fn sum_of(row: &[u32]) -> u64
    requires { length row.now ≤ 2 ^ 32 }
    ensures { result ≡ total row.now }
{
    row.iter().map(|x| u64::from(*x)).sum()
}

// The first refusal of the table that fits a head and a row.
pub fn check_plan(head: Head, row: &[u32]) -> Result<(), Refusal>
    ensures { refused_with result ≡ plan_refusal head row.now }
{
    check_head(head)?;
    if row.len() != row_length(head) {
        return Err(Refusal::Length);
    }
    if some_above(row, SCALE) {
        return Err(Refusal::Chance);
    }
    if sum_of(&row[head.months..]) != u64::from(SCALE) {
        return Err(Refusal::Weights);
    }
    let tail = row[head.months + head.sizes];
    if 0 < tail && head.sizes + 1 < largest_level(head) {
        return Err(Refusal::Tail);
    }
    Ok(())
}
