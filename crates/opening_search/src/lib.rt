// The least opening that is good enough: a call above the engine's, for those who quote.
#![tactic(auto)]

mod search;

ghost use Rattle.std.specs.Prelude.{◌≡◌, ℕ, ◌≤◌, cond, IfOk, length};
ghost use Rattle.model.specs.declared.Question.TheVariants.{Survive};
ghost use Rattle.model.specs.declared.refusal.Refusal.TheVariants.{Unreached};
ghost use Rattle.model.specs.Plan.{plan_of, opened};
ghost use Rattle.model.specs.Bounds.{EnclosesQuestion};
ghost use Rattle.model.specs.Refusal.{refused_with};
ghost use Rattle.opening_search.specs.Refusal.{target_outside, target_refusal};
ghost use Rattle.opening_search.specs.Answers.{least_result, least_answer, least_workspace_after, Misses, Least};

use crate::search::search;
use model::{Ask, Bounds, Head, Question, Refusal};
use plan::check_plan;
use plan::lengths::row_levels;
use questions::refusals::check_room;

// The least opening that reaches a target, with its bounds of survival in parts of 2^30.
#[derive(Clone, Copy)]
pub struct LeastOpening {
    pub opening: usize,
    pub bounds: Bounds,
}

// The smallest opening, of 0 to the head's, whose lower bound of survival reaches the target. The workspace needs what survive needs; whatever it holds, that
// part is 0 after an answer and after 15, where no opening reaches the target, and nothing else changes.
pub fn least(
    head: Head,
    row: &[u32],
    target: u32,
    workspace: &mut [u32],
) -> Result<LeastOpening, Refusal>
    ensures answered { least_result result ≡ least_answer head row.now target (length workspace.old) }
    ensures cleared { workspace.new ≡ least_workspace_after head row.now target workspace.old }
    ensures least { IfOk result (λ l. Least head row.now target (length workspace.old) (least_result (Ok l))) }
    ensures none { result ≡ Err Unreached → (v : ℕ) → v ≤ head.opening → Misses head row.now target (length workspace.old) v }
    ensures encloses { IfOk result (λ l. EnclosesQuestion (plan_of (opened head l.opening) row.now) Survive l.bounds.lower l.bounds.upper) }
{
    check(head, row, target, workspace.len())?;
    let months = head.months;
    let end = months + head.sizes;
    let needed = 2 * row_levels(head);
    search(
        &mut workspace[..needed],
        head.opening,
        head.income,
        &row[..months],
        &row[months..end],
        target,
    )
}

#[tactic(auto, unfolding(crate::specs::Refusal::target_outside, model::specs::Scale::S))]
fn target_is_outside(target: u32) -> bool
    ensures { result ≡ target_outside target }
{
    target < 1 || model::SCALE < target
}

// 14 for a target.
fn check_target(target: u32) -> Result<(), Refusal>
    ensures { refused_with result ≡ cond (target_outside target) 14 0 }
{
    if target_is_outside(target) {
        return Err(Refusal::Target);
    }
    Ok(())
}

// All checks that come before the search, in the workspace of survive.
fn check(head: Head, row: &[u32], target: u32, room: usize) -> Result<(), Refusal>
    ensures { refused_with result ≡ target_refusal head row.now target room }
{
    let question = Question::Survive;
    check_plan(head, row)?;
    check_target(target)?;
    check_room(Ask { head, question }, room)
}
