// The calls that the planner's programs make: the four questions, and ruin in a month.
#![tactic(auto)]

mod answers;
mod bounds;

ghost use Rattle.std.specs.Prelude.{◌≡◌, IfOk, length};
ghost use Rattle.model.specs.Plan.{plan_of};
ghost use Rattle.model.specs.Bounds.{EnclosesQuestion, EnclosesRuin};
ghost use Rattle.engine.specs.Answers.{answer_result, answer, workspace_after, ruin_answer, ruin_workspace_after};

use crate::answers::{none_allowed, work_out};
use crate::bounds::LastRows;
use model::{Ask, Bounds, Head, Question, Refusal};
use plan::lengths::row_levels;
use questions::needs::{opening_allowed, shape_of, workspace_needed};
use questions::refusals::{check_ask, check_ruin};

// Answers one question about the plan of the ask's head and the row. The workspace needs twice the levels of a row, 2 × (opening + income × months + 1)
// numbers, for both k that times k + 1; whatever it holds, that part is 0 after an answer, and nothing else changes. High below the opening is known at once: no
// month is worked for it.
pub fn ask(ask: Ask, row: &[u32], workspace: &mut [u32]) -> Result<Bounds, Refusal>
    ensures answered { answer_result result ≡ answer ask row.now (length workspace.old) }
    ensures cleared { workspace.new ≡ workspace_after ask row.now workspace.old }
    ensures encloses { IfOk result (λ b. EnclosesQuestion (plan_of ask.head row.now) ask.question b.lower b.upper) }
{
    check_ask(ask, row, workspace.len())?;
    let head = ask.head;
    let question = ask.question;
    if !opening_allowed(question, head.opening) {
        return Ok(none_allowed(workspace_needed(ask), workspace));
    }
    let shape = shape_of(question, row_levels(head), head.income);
    Ok(work_out(head, head.months, shape, LastRows::Placed, row, workspace))
}

// The bounds of the chance that ruin first comes in this month, of 1 to the plan's last. The workspace is that of survive,
// and is left as by `ask`.
pub fn ruin_in_month(
    head: Head,
    month: usize,
    row: &[u32],
    workspace: &mut [u32],
) -> Result<Bounds, Refusal>
    ensures answered { answer_result result ≡ ruin_answer head month row.now (length workspace.old) }
    ensures cleared { workspace.new ≡ ruin_workspace_after head month row.now workspace.old }
    ensures encloses { IfOk result (λ b. EnclosesRuin (plan_of head row.now) month b.lower b.upper) }
{
    check_ruin(head, month, row, workspace.len())?;
    let shape = shape_of(Question::Survive, row_levels(head), head.income);
    let earlier = month - 1;
    let last = LastRows::Ruin(row[earlier]);
    Ok(work_out(head, earlier, shape, last, row, workspace))
}
