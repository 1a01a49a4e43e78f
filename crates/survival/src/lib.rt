// Survival at every opening of a plan, from 0 to its own: one call for the planner's chart.
#![tactic(auto)]

mod rows;

ghost use Rattle.std.specs.Prelude.{◌≡◌, ℕ, ◌+◌, ◌*◌, ◌≤◌, length, get_or};
ghost use Rattle.model.specs.declared.Question.TheVariants.{Survive};
ghost use Rattle.model.specs.Plan.{plan_of, opened};
ghost use Rattle.model.specs.Bounds.{EnclosesQuestion};
ghost use Rattle.model.specs.Refusal.{refused_with};
ghost use Rattle.engine.specs.Answers.{bounds_answer, answer};
ghost use Rattle.survival.specs.Openings.{opening_ask, openings_refusal, bounds_after, openings_workspace_after};

use crate::rows::put_openings;
use model::{Head, Refusal};
use plan::check_plan;
use plan::lengths::row_levels;

// The bounds of survival of the plan with each opening from 0 to the head's, in parts of 2^30: lower and upper of opening 0, then of 1, and so on, in the first
// 2 × (opening + 1) numbers of `bounds`. The workspace needs what survive needs; whatever it holds, that part is 0 after an answer, and nothing else changes.
pub fn all_openings(
    head: Head,
    row: &[u32],
    workspace: &mut [u32],
    bounds: &mut [u32],
) -> Result<(), Refusal>
    ensures answered { refused_with result ≡ openings_refusal head row.now (length workspace.old) (length bounds.old) }
    ensures filled { bounds.new ≡ bounds_after head row.now (length workspace.old) bounds.old }
    ensures cleared { workspace.new ≡ openings_workspace_after head row.now (length bounds.old) workspace.old }
    ensures asked { refused_with result ≡ 0 → (v : ℕ) → v ≤ head.opening →
        answer (opening_ask head v) row.now (length workspace.old)
        ≡ bounds_answer 0 (get_or bounds.new (2 * v) 0) (get_or bounds.new (2 * v + 1) 0) }
    ensures encloses { refused_with result ≡ 0 → (v : ℕ) → v ≤ head.opening →
        EnclosesQuestion (plan_of (opened head v) row.now) Survive (get_or bounds.new (2 * v) 0) (get_or bounds.new (2 * v + 1) 0) }
{
    check(head, row, workspace.len(), bounds.len())?;
    let opening = head.opening;
    let months = head.months;
    let end = months + head.sizes;
    let needed = 2 * row_levels(head);
    let places = 2 * (opening + 1);
    put_openings(
        &mut bounds[..places],
        &mut workspace[..needed],
        opening,
        head.income,
        &row[..months],
        &row[months..end],
    );
    Ok(())
}

// The checks of the plan, then 11 where the workspace or the lent row is too short.
fn check(head: Head, row: &[u32], room: usize, places: usize) -> Result<(), Refusal>
    ensures { refused_with result ≡ openings_refusal head row.now room places }
{
    check_plan(head, row)?;
    let opening = head.opening;
    if room < 2 * row_levels(head) || places < 2 * (opening + 1) {
        return Err(Refusal::Workspace);
    }
    Ok(())
}
