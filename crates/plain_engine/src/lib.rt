// The plain engine for small plans: the four questions answered without rows, by asking for the values that each value needs.
#![tactic(auto)]

pub mod steps;
pub mod value;

ghost use Rattle.std.specs.Prelude.{◌≡◌, ℕ, ◌≤◌, OnOk, IfOk};
ghost use Rattle.model.specs.Plan.{plan_of};
ghost use Rattle.model.specs.Bounds.{EnclosesQuestion};
ghost use Rattle.model.specs.Refusal.{refused_with, workspace_needed};
ghost use Rattle.engine.specs.Answers.{answer_result, answer};
ghost use Rattle.plain_engine.specs.Answers.{plain_refusal, plain_answer};

use crate::steps::is_large;
use crate::value::opening_value;
use model::{Ask, Bounds, Refusal, Rounding};
use plan::check_plan;
use questions::refusals::check_question;

// The plan's checks, then 10 where the plan is too large or the question outside its limits.
pub fn check(ask: Ask, row: &[u32]) -> Result<(), Refusal>
    ensures { refused_with result ≡ plain_refusal ask row.now }
{
    check_plan(ask.head, row)?;
    if is_large(ask.head) {
        return Err(Refusal::Outside);
    }
    check_question(ask.question)
}

// Answers one question about the small plan of the ask's head and the row, as `engine::ask` does with a large enough workspace.
pub fn ask(ask: Ask, row: &[u32]) -> Result<Bounds, Refusal>
    ensures answered { answer_result result ≡ plain_answer ask row.now }
    ensures same { OnOk result ((room : ℕ) → workspace_needed ask ≤ room → answer_result result ≡ answer ask row.now room) }
    ensures encloses { IfOk result (λ b. EnclosesQuestion (plan_of ask.head row.now) ask.question b.lower b.upper) }
{
    check(ask, row)?;
    let head = ask.head;
    let question = ask.question;
    let opening = head.opening;
    let months = head.months;
    let end = months + head.sizes;
    let chances = &row[..months];
    let severity = &row[months..end];
    Ok(Bounds {
        lower: opening_value(question, chances, severity, opening, Rounding::Down),
        upper: opening_value(question, chances, severity, opening, Rounding::Up),
    })
}
