// The calls of the engine on an accepted plan, with enough workspace: they do not refuse.
ghost use Rattle.std.specs.Prelude.{◌≡◌, false};
ghost use Rattle.model.specs.declared.Question.TheVariants.{Survive};
ghost use Rattle.model.specs.Plan.{plan_of};
ghost use Rattle.model.specs.Refusal.{Accepted, outside, month_outside};
ghost use Rattle.report_lines.specs.Asking.{Answerable, workspace_left};
ghost use Rattle.report_lines.specs.Lines.{bounds_of, ruin_bounds_of, CountsOf};

use count_row::CountRow;
use model::{Ask, Bounds, Head, Question};

pub fn bounds_of(head: Head, question: Question, row: &[u32], workspace: &mut [u32]) -> Bounds
    requires answerable { Answerable head row.now workspace.old }
    requires question_value { outside question ≡ false }
    ensures answered { result ≡ bounds_of (plan_of head row.now) question }
    ensures cleared { workspace.new ≡ workspace_left head question workspace.old }
{
    engine::ask(Ask { head, question }, row, workspace).unwrap()
}

pub fn ruin_of(head: Head, month: usize, row: &[u32], workspace: &mut [u32]) -> Bounds
    requires answerable { Answerable head row.now workspace.old }
    requires month_value { month_outside head month ≡ false }
    ensures answered { result ≡ ruin_bounds_of (plan_of head row.now) month }
    ensures cleared { workspace.new ≡ workspace_left head Survive workspace.old }
{
    engine::ruin_in_month(head, month, row, workspace).unwrap()
}

pub fn count_row_of(head: Head, row: &[u32]) -> CountRow
    requires { Accepted head row.now }
    ensures { CountsOf (plan_of head row.now) result.lower result.upper }
{
    count_row::count_claims(head, row).unwrap()
}
