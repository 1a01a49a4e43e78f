// The count row: bounds for each number of claims in a plan's months, ruin or not, in one call.
#![tactic(auto)]

mod counts;

ghost use Rattle.std.specs.Prelude.{◌≡◌, ℕ, ◌<◌, IfOk, get_or};
ghost use Rattle.model.specs.Limits.{places};
ghost use Rattle.model.specs.Plan.{plan_of};
ghost use Rattle.model.specs.Bounds.{EnclosesCount};
ghost use Rattle.count_row.specs.Answers.{count_answer, count_result};

use model::{Head, Refusal, limits};

// The count row: bounds for each number of claims from 0 to the longest plan's.
#[derive(Clone, Copy)]
pub struct CountRow {
    pub lower: [u32; limits::PLACES],
    pub upper: [u32; limits::PLACES],
}

// The bounds for each number of claims in the plan's months, ruin or not.
pub fn count_claims(head: Head, row: &[u32]) -> Result<CountRow, Refusal>
    ensures answered { count_result result ≡ count_answer head row.now }
    ensures encloses { IfOk result (λ r. (k : ℕ) → k < places →
        EnclosesCount (plan_of head row.now) k (get_or r.lower k 0) (get_or r.upper k 0)) }
{
    plan::check_plan(head, row)?;
    Ok(counts::count_rows(&row[..head.months]))
}
