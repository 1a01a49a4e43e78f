// The groups of lines of the report: those of each question, and those of the count row.
#![tactic(auto)]

ghost use Rattle.std.specs.Prelude.{◌≡◌, ℕ, ◌+◌, ◌*◌, ◌<◌, ◌≤◌, false, List, length};
ghost use Rattle.model.specs.declared.Head.{Head};
ghost use Rattle.model.specs.declared.Question.{Question};
ghost use Rattle.model.specs.Limits.{workspace_room};
ghost use Rattle.model.specs.Plan.{plan_of};
ghost use Rattle.model.specs.Refusal.{HeadAccepted, Accepted, outside};
ghost use Rattle.model.proofs.Facts.{accepted_head};
ghost use Rattle.text.specs.Text.{joined, Appended};
ghost use Rattle.report_lines.specs.Asking.{Answerable, Cleared, question_needs};
ghost use Rattle.report_lines.proofs.AskingLaws.{answerable_still};
ghost use Rattle.report_lines.proofs.LineLaws.{question_short};
ghost use Rattle.report_groups.specs.Groups.{lines_need, group_needs, question_lines, line_range, group_lines, claims_at, claims_lines, LinesFit, most_lines};
ghost use Rattle.report_lines.specs.Lines.{question_line, line_room};
ghost use Rattle.report_groups.specs.Groups.{numbered as Lines·numbered};

use model::{Head, Question, limits};
use plan::lengths::largest_level;
use report_lines::answers;
use report_lines::lines::{self, put_numbered};

// The numbers of a question's lines: the first, and how many there are.
#[derive(Clone, Copy)]
pub struct LineRange {
    pub first: usize,
    pub count: usize,
}

pub fn line_range(question: Question, head: Head) -> LineRange
    requires { HeadAccepted head }
    ensures { result ≡ line_range question head }
{
    match question {
        Question::Survive => LineRange { first: 0, count: 1 },
        Question::Both(_) => LineRange {
            first: 0,
            count: head.months.min(limits::CLAIMS) + 1,
        },
        Question::High(_) => LineRange {
            first: 1,
            count: largest_level(head),
        },
        Question::Low(_) => LineRange {
            first: 1,
            count: head.opening + head.income,
        },
    }
}

// What a report asks its questions of: a plan, or a mixture of plans.
pub trait Asked {
    // the head that gives the lines their numbers, the line of a question, and what asking needs of it and of a workspace
    ghost asked_head: { Self → Head };

    ghost asked_line: { Self → Question → List ℕ };

    ghost can_answer: { Self → List ℕ → Type 0 };

    fn head(&self) -> Head
        ensures { result ≡ asked_head self.now };

    // A question's line, as it is answered.
    fn put_question(
        &self,
        text: &mut [u8],
        at: usize,
        question: Question,
        workspace: &mut [u32],
    ) -> usize
        requires answerable { can_answer self.now workspace.old }
        requires question_value { outside question ≡ false }
        requires line_room_in_bounds { at + line_room ≤ length text.old }
        ensures written { Appended text.old at (asked_line self.now question) text.new result }
        ensures cleared { Cleared (question_needs (asked_head self.now) question) workspace.old workspace.new };

    // What is asked is accepted, its lines are no longer than the room for one, and after any questions the next can be asked.
    ghost accepted: { (s : Self) (ws : List ℕ) → can_answer s ws → HeadAccepted (asked_head s) };

    ghost short: { (s : Self) (q : Question) → length (asked_line s q) ≤ line_room };

    ghost room: { (s : Self) (ws : List ℕ) → can_answer s ws → workspace_room ≤ length ws };

    ghost still: { (s : Self) (n : ℕ) (ws ws' : List ℕ) → can_answer s ws → Cleared n ws ws' → can_answer s ws' };
}

// A plan, from its head and its row.
#[derive(Clone, Copy)]
pub struct PlanAsked<'a> {
    pub head: Head,
    pub row: &'a [u32],
}

impl<'a> Asked for PlanAsked<'a> {
    ghost asked_head = { λ s. s.head };

    ghost asked_line = { λ s. question_line (plan_of s.head s.row.now) };

    ghost can_answer = { λ s ws. Answerable s.head s.row.now ws };

    fn head(&self) -> Head {
        self.head
    }

    fn put_question(
        &self,
        text: &mut [u8],
        at: usize,
        question: Question,
        workspace: &mut [u32],
    ) -> usize {
        lines::put_question(text, at, self.head, question, self.row, workspace)
    }

    ghost accepted = { λ s ws a. accepted_head _ _ a.accepted };

    ghost short = { λ s q. question_short _ q };

    ghost room = { λ s ws a. a.room };

    ghost still = { λ s n ws ws' a cleared. answerable_still a cleared };
}

// All lines of a question.
pub fn put_group<A: Asked>(
    text: &mut [u8],
    at: usize,
    asked: &A,
    question: Question,
    workspace: &mut [u32],
) -> usize
    requires answerable { A.can_answer asked.now workspace.old }
    requires line_room_in_bounds { at + most_lines question * line_room ≤ length text.old }
    ensures written { Appended text.old at (group_lines (A.asked_line asked.now) (A.asked_head asked.now) question) text.new result }
    ensures cleared { Cleared (group_needs (A.asked_head asked.now) question) workspace.old workspace.new }
{
    let range = line_range(question, asked.head());
    put_range(
        text,
        at,
        asked,
        question,
        range.first,
        range.count,
        workspace,
    )
}

// A question's lines, its number rising from the first.
fn put_range<A: Asked>(
    text: &mut [u8],
    at: usize,
    asked: &A,
    question: Question,
    first: usize,
    count: usize,
    workspace: &mut [u32],
) -> usize
    requires answerable { A.can_answer asked.now workspace.old }
    requires lines_fit { LinesFit question first count at text.old }
    ensures written { Appended text.old at (question_lines (A.asked_line asked.now) question first count) text.new result }
    ensures cleared { Cleared (lines_need (A.asked_head asked.now) question first count) workspace.old workspace.new }
{
    let mut end = at;
    for i in 0..count {
        end = asked.put_question(text, end, numbered(question, first + i), workspace);
    }
    end
}

// The same question with another number.
pub fn numbered(question: Question, x: usize) -> Question
    ensures { result ≡ Lines·numbered question x }
{
    match question {
        Question::Survive => Question::Survive,
        Question::Both(_) => Question::Both(x),
        Question::High(_) => Question::High(x),
        Question::Low(_) => Question::Low(x),
    }
}

// All lines of the count row.
pub fn put_counts(text: &mut [u8], at: usize, head: Head, row: &[u32]) -> usize
    requires accepted { Accepted head row.now }
    requires line_room_in_bounds { at + (head.months + 1) * line_room ≤ length text.old }
    ensures { Appended text.old at (claims_lines (plan_of head row.now) head.months) text.new result }
{
    let counts = answers::count_row_of(head, row);
    let lower = counts.lower;
    let upper = counts.upper;
    put_claims(text, at, head.months, &lower, &upper)
}

// The lines of the count row, for no claims to as many as there are months.
fn put_claims(text: &mut [u8], at: usize, months: usize, lower: &[u32], upper: &[u32]) -> usize
    requires months_in_bounds { (months < length lower.now) × (months < length upper.now) }
    requires line_room_in_bounds { at + (months + 1) * line_room ≤ length text.old }
    ensures { Appended text.old at (joined (months + 1) (claims_at lower.now upper.now)) text.new result }
{
    let mut end = at;
    for k in 0..=months {
        let (low, high) = (u64::from(lower[k]), u64::from(upper[k]));
        end = put_numbered(text, end, b"claims", k, low, high);
    }
    end
}
