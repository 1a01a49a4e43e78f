// The lines of the report, appended to a text.
ghost use Rattle.std.specs.Prelude.{◌≡◌, false, ◌+◌, ◌≤◌, length};
ghost use Rattle.model.specs.Plan.{plan_of};
ghost use Rattle.model.specs.Refusal.{outside};
ghost use Rattle.text.specs.Text.{Appended};
ghost use Rattle.report_lines.specs.Asking.{Answerable, workspace_left};
ghost use Rattle.report_lines.specs.Lines.{head_line, head_room, bounds_line, question_line, numbered_line, refused_line, line_room, number_room};

use crate::answers;
use model::{Head, Question};
use text::{put_entry, put_line};

#[tactic(auto, using(text::proofs::TextLaws::entry_at_most, text::proofs::TextLaws::line_at_most))]
pub fn put_head(text: &mut [u8], at: usize, head: Head) -> usize
    requires { at + head_room ≤ length text.old }
    ensures { Appended text.old at (head_line head) text.new result }
{
    // std has no From that makes a usize a u64.
    let months = [head.months as u64];
    let opening = [head.opening as u64];
    let sizes = [head.sizes as u64];
    let income = [head.income as u64];
    let end = put_entry(text, at, b"months", &months);
    let end = put_entry(text, end, b" opening", &opening);
    let end = put_entry(text, end, b" sizes", &sizes);
    put_line(text, end, b" income", &income)
}

// A question's line, from its bounds.
#[tactic(auto, using(text::proofs::TextLaws::line_at_most))]
pub fn put_bounds(text: &mut [u8], at: usize, question: Question, lower: u64, upper: u64) -> usize
    requires { at + line_room ≤ length text.old }
    ensures { Appended text.old at (bounds_line question lower upper) text.new result }
{
    match question {
        Question::Survive => put_line(text, at, b"survive", &[lower, upper]),
        Question::Both(k) => put_numbered(text, at, b"both", k, lower, upper),
        Question::High(level) => put_numbered(text, at, b"high", level, lower, upper),
        Question::Low(level) => put_numbered(text, at, b"low", level, lower, upper),
    }
}

// A question's line, as the engine answers it.
#[tactic(auto, unfolding(crate::specs::Lines::question_line))]
pub fn put_question(
    text: &mut [u8],
    at: usize,
    head: Head,
    question: Question,
    row: &[u32],
    workspace: &mut [u32],
) -> usize
    requires answerable { Answerable head row.now workspace.old }
    requires question_value { outside question ≡ false }
    requires line_room_in_bounds { at + line_room ≤ length text.old }
    ensures written { Appended text.old at (question_line (plan_of head row.now) question) text.new result }
    ensures cleared { workspace.new ≡ workspace_left head question workspace.old }
{
    let bounds = answers::bounds_of(head, question, row, workspace);
    let (lower, upper) = (u64::from(bounds.lower), u64::from(bounds.upper));
    put_bounds(text, at, question, lower, upper)
}

// A line with a number of its own, of a place of the count row or of a month.
#[tactic(auto, using(text::proofs::TextLaws::line_at_most))]
pub fn put_numbered(
    text: &mut [u8],
    at: usize,
    word: &[u8],
    number: usize,
    lower: u64,
    upper: u64,
) -> usize
    requires { at + length word.now + number_room ≤ length text.old }
    ensures { Appended text.old at (numbered_line word.now number lower upper) text.new result }
{
    // std has no From that makes a usize a u64.
    put_line(text, at, word, &[number as u64, lower, upper])
}

// The line of a refused plan, in the place of its report or its quote.
#[tactic(auto, using(text::proofs::TextLaws::line_at_most))]
pub fn put_refused(text: &mut [u8], at: usize, refusal: u32) -> usize
    requires { at + line_room ≤ length text.old }
    ensures { Appended text.old at (refused_line refusal) text.new result }
{
    put_line(text, at, b"refused", &[u64::from(refusal)])
}
