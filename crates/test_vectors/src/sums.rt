// The claim sum on its own, with its line: over the weights of a plan, with the first `count` of its chances as the values that claims lead to.
ghost use Rattle.model.specs.Refusal.{Accepted};
ghost use Rattle.claims.specs.Values.{Parts};
ghost use Rattle.month_rule.specs.Months.{PlanTerms};

use crate::text;
use claims::sizes::{first_within, list_sizes};
use claims::sum::claim_sum;
use claims::table::ListedTable;
use model::Head;
use plan::check_plan;

pub fn claims(head: Head, count: usize, row: &[u32]) {
    match check_plan(head, row) {
        Ok(()) => add(head, count, row),
        Err(refusal) => text::refused(refusal, 3),
    }
    text::end();
}

fn add(head: Head, count: usize, row: &[u32])
    requires { Accepted head row.now }
{
    let months = head.months;
    let end = months + head.sizes;
    let values = count.min(months);
    list(&row[months..end], &row[..values]);
}

fn list(severity: &[u32], after: &[u32])
    requires { PlanTerms severity.now after.now }
{
    let filled = list_sizes(severity);
    sum(&filled.table(severity), after);
}

fn sum(table: &ListedTable, after: &[u32])
    requires { Parts after.now }
{
    let most = after.len().min(table.severity.len());
    let first = first_within(table.sizes, 0, most);
    let claims = claim_sum(table.severity, &table.sizes[first..], table.dense, after);
    // std has no From that makes a usize a u64.
    text::answered(&[claims.quotient, claims.remainder, claims.products as u64]);
}
