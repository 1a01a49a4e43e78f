// The planner's chart: from the bytes of a plan to a line for each opening from 0 to the plan's, or why there is none.
#![tactic(auto)]

ghost use Rattle.std.specs.Prelude.{◌≡◌, ◌+◌, ◌*◌, ◌≤◌, ◌++◌, length, take, drop};
ghost use Rattle.model.specs.Plan.{row_length};
ghost use Rattle.model.specs.Refusal.{Accepted};
ghost use Rattle.text.specs.Text.{joined, Appended};
ghost use Rattle.report_lines.specs.Lines.{line_room};
ghost use Rattle.chart.specs.Chart.{chart_lines, pair_line, text_room, chart_of};

use model::{Head, limits};
use plan::lengths::row_length;
use report_lines::lines::{put_numbered, put_refused};
use rooms::blank;
use survival::all_openings;

// Room for every chart: the proof of `chart` fails where it is less than `text_room`.
pub const TEXT: usize = 16384;

// Writes the chart of a plan's bytes to the start of the text, past which nothing changes, and answers how long it is. `within` is for a caller that takes
// the first r bytes.
#[tactic(auto, using(text::proofs::TextLaws::appended_whole))]
pub fn chart(bytes: &[u8], text: &mut [u8; TEXT]) -> usize
    ensures answered { result ≡ length (chart_of bytes.now) }
    ensures written { text.new ≡ chart_of bytes.now ++ drop result text.old }
    ensures within { (result ≤ length text.new) × (result ≡ length (take result text.new)) }
{
    put_chart(text, bytes)
}

fn put_chart(text: &mut [u8], bytes: &[u8]) -> usize
    requires { text_room ≤ length text.old }
    ensures { Appended text.old 0 (chart_of bytes.now) text.new result }
{
    match codec::read_plan(bytes) {
        Ok(plan) => put_plan(text, plan.head, &plan.row),
        Err(refusal) => put_refused(text, 0, refusal.number()),
    }
}

// The lines of an accepted plan, whose row is the first part of the lent one.
fn put_plan(text: &mut [u8], head: Head, row: &[u32]) -> usize
    requires accepted { Accepted head (take (row_length head) row.now) }
    requires text_room_in_bounds { text_room ≤ length text.old }
    ensures { Appended text.old 0 (chart_lines head (take (row_length head) row.now)) text.new result }
{
    let used = row_length(head);
    let mut workspace: [u32; limits::SURVIVAL] = blank();
    let mut bounds: [u32; limits::BOUNDS] = blank();
    all_openings(head, &row[..used], &mut workspace, &mut bounds).unwrap();
    put_lines(text, &bounds, head.opening)
}

// A line for each pair of bounds.
fn put_lines(text: &mut [u8], bounds: &[u32], opening: usize) -> usize
    requires opening_in_bounds { 2 * (opening + 1) ≤ length bounds.now }
    requires line_room_in_bounds { (opening + 1) * line_room ≤ length text.old }
    ensures { Appended text.old 0 (joined (opening + 1) (pair_line bounds.now)) text.new result }
{
    let mut end = 0;
    for v in 0..=opening {
        let lower = u64::from(bounds[2 * v]);
        let upper = u64::from(bounds[2 * v + 1]);
        end = put_numbered(text, end, b"opening", v, lower, upper);
    }
    end
}
