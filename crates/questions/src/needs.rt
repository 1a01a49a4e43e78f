// What each of the four questions needs, and whether its number is outside the limits.
ghost use Rattle.std.specs.Prelude.{◌≡◌, false};
ghost use Rattle.model.specs.MonthRule.{opening_allowed};
ghost use Rattle.model.specs.Refusal.{HeadAccepted, outside, workspace_needed};
ghost use Rattle.questions.specs.Needs.{shape_of};

use model::{Ask, Question, limits};
use month_rows::rows::Shape;
use plan::lengths;

pub fn is_outside(question: Question) -> bool
    ensures { result ≡ outside question }
{
    match question {
        Question::Survive => false,
        Question::Both(k) => limits::CLAIMS < k,
        Question::High(level) => limits::LEVEL < level,
        Question::Low(level) => limits::LEVEL < level,
    }
}

// Whether a question lets the fund open so: only high looks at the opening, which its level caps too.
pub fn opening_allowed(question: Question, opening: usize) -> bool
    ensures { result ≡ opening_allowed question opening }
{
    match question {
        Question::Survive => true,
        Question::Both(_) => true,
        Question::High(level) => opening <= level,
        Question::Low(_) => true,
    }
}

// The rows that a question needs, each of `width` places, with this income.
pub fn shape_of(question: Question, width: usize, income: usize) -> Shape
    requires { outside question ≡ false }
    ensures { result ≡ shape_of question width income }
{
    match question {
        Question::Survive => Shape {
            rows: 1,
            width,
            income,
            tallied: false,
            low: 0,
            above: width,
        },
        Question::Both(k) => Shape {
            rows: k + 1,
            width,
            income,
            tallied: true,
            low: 0,
            above: width,
        },
        Question::High(level) => Shape {
            rows: 1,
            width,
            income,
            tallied: false,
            low: 0,
            above: level + 1,
        },
        Question::Low(level) => Shape {
            rows: 1,
            width,
            income,
            tallied: false,
            low: level,
            above: width,
        },
    }
}

// The numbers of the workspace that a question needs.
pub fn workspace_needed(ask: Ask) -> usize
    requires head_accepted { HeadAccepted ask.head }
    requires question_value { outside ask.question ≡ false }
    ensures { result ≡ workspace_needed ask }
{
    let head = ask.head;
    let question = ask.question;
    let width = lengths::row_levels(head);
    let shape = shape_of(question, width, head.income);
    2 * width * shape.rows
}
