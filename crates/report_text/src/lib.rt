// The reserve report of documents 01 and 02: from the bytes of a plan to the text of its report.
#![tactic(auto)]

ghost use Rattle.std.specs.Prelude.{◌≡◌, ◌≤◌, ◌++◌, length, take, drop};
ghost use Rattle.model.specs.Limits.{workspace_room};
ghost use Rattle.model.specs.Plan.{row_length};
ghost use Rattle.text.specs.Text.{Appended};
ghost use Rattle.report_lines.specs.Asking.{Answerable, Cleared};
ghost use Rattle.report_text.specs.Report.{text_room, plan_report, report_of, plan_needs, report_needs};

use model::{Head, Question, limits};
use plan::lengths::row_length;
use report_groups::{PlanAsked, put_counts, put_group};
use report_lines::lines::{put_head, put_refused};
use rooms::blank;
use ruin_lines::put_ruins;

// Room for every report: the proof of `report` fails where it is less than `text_room`.
pub const TEXT: usize = 65536;

// Writes the report on a plan's bytes to the start of the text, past which nothing changes, and answers how long it is. `within` is for a
// caller that takes the first r bytes.
pub fn report(bytes: &[u8], text: &mut [u8; TEXT]) -> usize
    ensures answered { result ≡ length (report_of bytes.now) }
    ensures written { text.new ≡ report_of bytes.now ++ drop result text.old }
    ensures within { (result ≤ length text.new) × (result ≡ length (take result text.new)) }
{
    let mut workspace: [u32; limits::WORKSPACE] = blank();
    put_report(text, bytes, &mut workspace)
}

fn put_report(text: &mut [u8], bytes: &[u8], workspace: &mut [u32]) -> usize
    requires { (text_room ≤ length text.old) × (workspace_room ≤ length workspace.old) }
    ensures written { Appended text.old 0 (report_of bytes.now) text.new result }
    ensures cleared { Cleared (report_needs bytes.now) workspace.old workspace.new }
{
    match codec::read_plan(bytes) {
        Ok(plan) => put_accepted(text, plan.head, &plan.row, workspace),
        Err(refusal) => put_refused(text, 0, refusal.number()),
    }
}

// The report of an accepted plan, whose row is the first part of the lent one.
fn put_accepted(text: &mut [u8], head: Head, row: &[u32], workspace: &mut [u32]) -> usize
    requires answerable { Answerable head (take (row_length head) row.now) workspace.old }
    requires text_room_in_bounds { text_room ≤ length text.old }
    ensures written { Appended text.old 0 (plan_report head (take (row_length head) row.now)) text.new result }
    ensures cleared { Cleared (plan_needs head) workspace.old workspace.new }
{
    let used = row_length(head);
    put_plan(text, head, &row[..used], workspace)
}

fn put_plan(text: &mut [u8], head: Head, row: &[u32], workspace: &mut [u32]) -> usize
    requires answerable { Answerable head row.now workspace.old }
    requires text_room_in_bounds { text_room ≤ length text.old }
    ensures written { Appended text.old 0 (plan_report head row.now) text.new result }
    ensures cleared { Cleared (plan_needs head) workspace.old workspace.new }
{
    let plan = PlanAsked { head, row };
    let end = put_head(text, 0, head);
    let end = put_group(text, end, &plan, Question::Survive, workspace);
    let end = put_counts(text, end, head, row);
    let end = put_group(text, end, &plan, Question::Both(0), workspace);
    let end = put_group(text, end, &plan, Question::High(0), workspace);
    let end = put_group(text, end, &plan, Question::Low(0), workspace);
    put_ruins(text, end, head, row, workspace)
}
