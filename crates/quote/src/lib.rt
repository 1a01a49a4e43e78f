// The quoting desk's line: from the bytes of a plan and a target to the least opening that reaches it, or why there is none.
#![tactic(auto)]

ghost use Rattle.std.specs.Prelude.{◌≡◌, ◌≤◌, ◌++◌, length, take, drop};
ghost use Rattle.opening_search.specs.Answers.{least_result};
ghost use Rattle.text.specs.Text.{Appended};
ghost use Rattle.report_lines.specs.Lines.{line_room, opening_line};
ghost use Rattle.quote.specs.Quote.{answer_line, quote_of};

use model::{Refusal, limits};
use opening_search::LeastOpening;
use plan::lengths::row_length;
use report_lines::lines::{put_numbered, put_refused};
use rooms::blank;

// Room for every line: the proof of `quote` fails where it is less than `line_room`.
pub const TEXT: usize = 128;

// Writes the line for a plan's bytes and a target to the start of the text, past which nothing changes, and answers how long it is. `within` is for a
// caller that takes the first r bytes.
#[tactic(auto, using(text::proofs::TextLaws::appended_whole))]
pub fn quote(bytes: &[u8], target: u32, text: &mut [u8; TEXT]) -> usize
    ensures answered { result ≡ length (quote_of bytes.now target) }
    ensures written { text.new ≡ quote_of bytes.now target ++ drop result text.old }
    ensures within { (result ≤ length text.new) × (result ≡ length (take result text.new)) }
{
    put_quote(text, bytes, target)
}

fn put_quote(text: &mut [u8], bytes: &[u8], target: u32) -> usize
    requires { line_room ≤ length text.old }
    ensures { Appended text.old 0 (quote_of bytes.now target) text.new result }
{
    match least_for(bytes, target) {
        Ok(least) => put_least(text, least),
        Err(refusal) => put_refused(text, 0, refusal.number()),
    }
}

// The least opening for a plan's bytes and a target, in the workspace of survive.
fn least_for(bytes: &[u8], target: u32) -> Result<LeastOpening, Refusal>
    ensures { quote_of bytes.now target ≡ answer_line (least_result result) }
{
    let plan = codec::read_plan(bytes)?;
    let row: &[u32] = &plan.row;
    let used = row_length(plan.head);
    let mut workspace: [u32; limits::SURVIVAL] = blank();
    opening_search::least(plan.head, &row[..used], target, &mut workspace)
}

fn put_least(text: &mut [u8], least: LeastOpening) -> usize
    requires { line_room ≤ length text.old }
    ensures { Appended text.old 0 (opening_line least.opening least.bounds.lower least.bounds.upper) text.new result }
{
    let lower = u64::from(least.bounds.lower);
    let upper = u64::from(least.bounds.upper);
    put_numbered(text, 0, b"opening", least.opening, lower, upper)
}
