// The search for the least opening in the workspace of survive: the lower row decides in the first half, and once an opening is found the upper row is worked
// for it in the second.
ghost use Rattle.std.specs.Prelude.{◌≡◌, ◌*◌, ◌<◌, ◌≤◌, length, replicate};
ghost use Rattle.model.specs.Scale.{S};
ghost use Rattle.model.specs.Levels.{row_levels};
ghost use Rattle.claims.specs.Values.{Parts};
ghost use Rattle.month_rule.specs.Months.{PlanTerms};
ghost use Rattle.opening_search.specs.Answers.{least_result};
ghost use Rattle.opening_search.specs.Search.{search_answer};

use crate::LeastOpening;
use claims::sizes::list_sizes;
use claims::table::ListedTable;
use model::{Bounds, Refusal};
use target_rows::rows::{least_lower, upper_at};

// With the listed sizes that are not empty.
fn listed_search(
    workspace: &mut [u32],
    opening: usize,
    income: usize,
    chances: &[u32],
    table: &ListedTable,
    target: u32,
) -> Result<LeastOpening, Refusal>
    requires income_nonzero { (0 < income) × (length workspace.old ≡ 2 * row_levels income opening (length chances.now)) }
    requires chances_fit { Parts chances.now }
    requires target_nonzero { (0 < target) × (target ≤ S) }
    ensures answered { least_result result ≡ search_answer income table.now.severity.now opening chances.now target }
    ensures cleared { workspace.new ≡ replicate (length workspace.old) 0 }
{
    let half = opening + income * chances.len() + 1;
    workspace.fill(0);
    let Some(found) = least_lower(
        &mut workspace[..half],
        opening,
        income,
        chances,
        table,
        target,
    ) else {
        return Err(Refusal::Unreached);
    };
    let least = found.opening;
    let upper = upper_at(&mut workspace[half..], least, income, chances, table);
    let lower = found.lower;
    Ok(LeastOpening {
        opening: least,
        bounds: Bounds { lower, upper },
    })
}

// The sizes that are not empty are listed once for all of it.
pub fn search(
    workspace: &mut [u32],
    opening: usize,
    income: usize,
    chances: &[u32],
    severity: &[u32],
    target: u32,
) -> Result<LeastOpening, Refusal>
    requires income_nonzero { (0 < income) × (length workspace.old ≡ 2 * row_levels income opening (length chances.now)) }
    requires plan_terms { PlanTerms severity.now chances.now }
    requires target_nonzero { (0 < target) × (target ≤ S) }
    ensures answered { least_result result ≡ search_answer income severity.now opening chances.now target }
    ensures cleared { workspace.new ≡ replicate (length workspace.old) 0 }
{
    let filled = list_sizes(severity);
    let table = filled.table(severity);
    listed_search(workspace, opening, income, chances, &table, target)
}
