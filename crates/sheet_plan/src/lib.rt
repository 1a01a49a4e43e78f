// The actuary's rule sheets: a sheet's bytes into the plan that its rules make, as a head and a row or as plan bytes.
#![tactic(auto)]

ghost use Rattle.std.specs.Prelude.{◌≡◌, ◌≤◌, length, take};
ghost use Rattle.std.specs.Result.{IfOk};
ghost use Rattle.codec.specs.Answers.{head_result, length_result};
ghost use Rattle.sheet_plan.specs.Answers.{sheet_answer, sheet_row_after, plan_answer, plan_bytes_after};

use model::{Head, Refusal, limits};
use plan::lengths::row_length;
use rooms::blank;
use sheet_values::{bytes, rules};

// Reads a sheet and answers the plan's head: its row fills the first numbers of the lent row, the rest of which is untouched, as all of it is if the sheet is
// refused.
pub fn read(bytes: &[u8], row: &mut [u32]) -> Result<Head, Refusal>
    ensures answer { head_result result ≡ sheet_answer bytes.now (length row.old) }
    ensures memory { row.new ≡ sheet_row_after bytes.now row.old }
{
    sheet_checks::check(bytes)?;
    let sheet = bytes::sheet_of(bytes);
    let head = bytes::head_of(sheet);
    let count = row_length(head);
    if row.len() < count {
        return Err(Refusal::Workspace);
    }
    rules::put_row(sheet, &mut row[..count]);
    Ok(head)
}

// Writes the bytes of a sheet's plan and answers how many they are: they fill the first of the lent bytes, the rest of which is untouched, as all of them are
// if the sheet is refused. `within` is for a caller that takes the plan's bytes.
pub fn write_plan(bytes: &[u8], plan: &mut [u8]) -> Result<usize, Refusal>
    ensures answer { length_result result ≡ plan_answer bytes.now (length plan.old) }
    ensures memory { plan.new ≡ plan_bytes_after bytes.now plan.old }
    ensures within { IfOk result (λ n. (n ≤ length plan.new) × (n ≡ length (take n plan.new))) }
{
    let mut row: [u32; limits::ROW] = blank();
    let head = read(bytes, &mut row)?;
    let count = row_length(head);
    codec::write(head, &row[..count], plan)
}
