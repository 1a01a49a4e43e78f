// When a call that answers two bounds is turned away, in the order of the refusal table.
ghost use Rattle.std.specs.Prelude.{◌≡◌, cond, ltb, false};
ghost use Rattle.model.specs.Refusal.{refused_with, outside, month_outside, workspace_needed, HeadAccepted, ask_refusal, ruin_refusal};

use crate::needs::{is_outside, workspace_needed};
use model::{Ask, Head, Question, Refusal};
use plan::check_plan;

// 10 for the number of a question.
pub fn check_question(question: Question) -> Result<(), Refusal>
    ensures { refused_with result ≡ cond (outside question) 10 0 }
{
    if is_outside(question) {
        return Err(Refusal::Outside);
    }
    Ok(())
}

// 10 for a month, which are counted from 1.
fn check_month(head: Head, month: usize) -> Result<(), Refusal>
    ensures { refused_with result ≡ cond (month_outside head month) 10 0 }
{
    if !(1..=head.months).contains(&month) {
        return Err(Refusal::Outside);
    }
    Ok(())
}

// 11 for a workspace that is shorter than a question needs.
pub fn check_room(ask: Ask, room: usize) -> Result<(), Refusal>
    requires head_accepted { HeadAccepted ask.head }
    requires question_value { outside ask.question ≡ false }
    ensures { refused_with result ≡ cond (ltb room (workspace_needed ask)) 11 0 }
{
    if room < workspace_needed(ask) {
        return Err(Refusal::Workspace);
    }
    Ok(())
}

pub fn check_ask(ask: Ask, row: &[u32], room: usize) -> Result<(), Refusal>
    ensures { refused_with result ≡ ask_refusal ask row.now room }
{
    check_plan(ask.head, row)?;
    check_question(ask.question)?;
    check_room(ask, room)
}

// In the workspace of survive.
pub fn check_ruin(head: Head, month: usize, row: &[u32], room: usize) -> Result<(), Refusal>
    ensures { refused_with result ≡ ruin_refusal head month row.now room }
{
    let question = Question::Survive;
    check_plan(head, row)?;
    check_month(head, month)?;
    check_room(Ask { head, question }, room)
}
