// The report of a mixture: from its bytes to the text that document 02's mix gets.
#![tactic(auto)]

ghost use Rattle.std.specs.Prelude.{◌≡◌, ◌≤◌, ◌++◌, length, take, drop};
ghost use Rattle.model.specs.Limits.{workspace_room};
ghost use Rattle.mixture_plans.specs.Rows.{components_of};
ghost use Rattle.mixture_plans.specs.Refusal.{plans_head};
ghost use Rattle.text.specs.Text.{Appended};
ghost use Rattle.report_lines.specs.Asking.{Cleared};
ghost use Rattle.mixture_lines.specs.Lines.{mixture_report, mixture_text_room, mixture_needs, MixtureAnswerable};
ghost use Rattle.mixture_text.specs.Report.{mixture_report_of, report_needs};

use mixture_bytes::read_mixture;
use mixture_lines::put_mixture;
use mixture_plans::Mixture;
use model::limits;
use report_lines::lines::put_refused;
use rooms::blank;

// Room for every report: the proof of `report` fails where it is less than `mixture_text_room`.
pub const TEXT: usize = 65536;

// Writes the report on a mixture's bytes to the start of the text, past which nothing changes, and answers how long it is. `within` is for a caller that
// takes the first r bytes.
pub fn report(bytes: &[u8], text: &mut [u8; TEXT]) -> usize
    ensures answered { result ≡ length (mixture_report_of bytes.now) }
    ensures written { text.new ≡ mixture_report_of bytes.now ++ drop result text.old }
    ensures within { (result ≤ length text.new) × (result ≡ length (take result text.new)) }
{
    let mut workspace: [u32; limits::WORKSPACE] = blank();
    put_report(text, bytes, &mut workspace)
}

fn put_report(text: &mut [u8], bytes: &[u8], workspace: &mut [u32]) -> usize
    requires { (mixture_text_room ≤ length text.old) × (workspace_room ≤ length workspace.old) }
    ensures written { Appended text.old 0 (mixture_report_of bytes.now) text.new result }
    ensures cleared { Cleared (report_needs bytes.now) workspace.old workspace.new }
{
    match read_mixture(bytes) {
        Ok(read) => put_accepted(text, read.mixture, &read.row, read.used, workspace),
        Err(refusal) => put_refused(text, 0, refusal.number()),
    }
}

// The report of an accepted mixture, whose plans' rows are the first part of the lent one.
fn put_accepted(
    text: &mut [u8],
    mixture: Mixture,
    row: &[u32],
    used: usize,
    workspace: &mut [u32],
) -> usize
    requires mixture_answerable { MixtureAnswerable mixture (take used row.now) workspace.old }
    requires mixture_text_room_in_bounds { (mixture_text_room ≤ length text.old) × (used ≤ length row.now) }
    ensures written { Appended text.old 0 (mixture_report (plans_head mixture) (components_of mixture (take used row.now))) text.new result }
    ensures cleared { Cleared (mixture_needs mixture) workspace.old workspace.new }
{
    put_mixture(text, mixture, &row[..used], workspace)
}
