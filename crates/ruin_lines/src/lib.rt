// The lines of ruin in each month, and the line of their sums: the layer below the report's call. What its functions require, an accepted plan and enough room
// give.
#![tactic(auto)]

ghost use Rattle.std.specs.Prelude.{◌≡◌, false, ◌+◌, ◌*◌, ◌^◌, ◌<◌, ◌≤◌, length};
ghost use Rattle.model.specs.declared.Question.TheVariants.{Survive};
ghost use Rattle.model.specs.Plan.{plan_of};
ghost use Rattle.model.specs.Bounds.{ruin_lower, ruin_upper};
ghost use Rattle.model.specs.Refusal.{month_outside};
ghost use Rattle.text.specs.Text.{Appended};
ghost use Rattle.report_lines.specs.Asking.{Answerable, workspace_left, Cleared};
ghost use Rattle.ruin_lines.specs.Lines.{ruins_need, ruin_line, ruin_lines};
ghost use Rattle.report_lines.specs.Lines.{line_room};

use model::Head;
use report_lines::answers::ruin_of;
use report_lines::lines::put_numbered;
use text::put_line;

// The lines of the first months: where they end, and the sums of their bounds.
#[derive(Clone, Copy)]
pub struct RuinLines {
    pub end: usize,
    pub lower: u64,
    pub upper: u64,
}

// One month's line more.
fn put_ruin(
    text: &mut [u8],
    lines: RuinLines,
    head: Head,
    month: usize,
    row: &[u32],
    workspace: &mut [u32],
) -> RuinLines
    requires answerable { Answerable head row.now workspace.old }
    requires month_value { month_outside head month ≡ false }
    requires line_room_in_bounds { (lines.end + line_room ≤ length text.old) × (lines.lower < 2 ^ 63) × (lines.upper < 2 ^ 63) }
    ensures written { Appended text.old lines.end (ruin_line month (ruin_lower (plan_of head row.now) month) (ruin_upper (plan_of head row.now) month)) text.new result.end }
    ensures summed { (result.lower ≡ lines.lower + ruin_lower (plan_of head row.now) month) × (result.upper ≡ lines.upper + ruin_upper (plan_of head row.now) month) }
    ensures cleared { workspace.new ≡ workspace_left head Survive workspace.old }
{
    let bounds = ruin_of(head, month, row, workspace);
    let lower = u64::from(bounds.lower);
    let upper = u64::from(bounds.upper);
    let end = put_numbered(text, lines.end, b"fails", month, lower, upper);
    RuinLines {
        end,
        lower: lines.lower + lower,
        upper: lines.upper + upper,
    }
}

// The lines of all months, and that of their sums.
pub fn put_ruins(
    text: &mut [u8],
    at: usize,
    head: Head,
    row: &[u32],
    workspace: &mut [u32],
) -> usize
    requires answerable { Answerable head row.now workspace.old }
    requires line_room_in_bounds { at + (head.months + 1) * line_room ≤ length text.old }
    ensures written { Appended text.old at (ruin_lines (plan_of head row.now)) text.new result }
    ensures cleared { Cleared (ruins_need head) workspace.old workspace.new }
{
    let mut lines = RuinLines {
        end: at,
        lower: 0,
        upper: 0,
    };
    for i in 0..head.months {
        lines = put_ruin(text, lines, head, i + 1, row, workspace);
    }
    put_line(text, lines.end, b"fails all", &[lines.lower, lines.upper])
}
