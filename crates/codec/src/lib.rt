// Plan bytes: reading them into a lent row, and writing a head and a row into lent bytes.
#![tactic(auto)]

ghost use Rattle.std.specs.Prelude.{◌≡◌, length};
ghost use Rattle.codec.specs.Answers.{head_result, read_answer, row_after, plan_result, byte_plan, length_result, write_answer, bytes_after};

use model::{Head, Refusal, limits};
use plan::lengths::row_length;
use plan_bits::{format, reading, writing};
use rooms::blank;

// A plan as it is read from bytes: its head, and a row with room for every plan's, which past the plan's is 0.
#[derive(Clone, Copy)]
pub struct BytePlan {
    pub head: Head,
    pub row: [u32; limits::ROW],
}

// Reads a plan's head: its row fills the first numbers of the lent row, the rest of which is untouched, as all of it is if the plan is refused.
pub fn read(bytes: &[u8], row: &mut [u32]) -> Result<Head, Refusal>
    ensures answer { head_result result ≡ read_answer bytes.now (length row.old) }
    ensures memory { row.new ≡ row_after bytes.now row.old }
{
    // The checks read the numbers into a row of their own. Only when they have ended is anything stored in the lent one.
    reading::check(bytes, row.len())?;
    let head = reading::head_of(bytes);
    let count = row_length(head);
    reading::decode(bytes, &mut row[..count]);
    Ok(head)
}

// Reads a plan into a row of its own.
pub fn read_plan(bytes: &[u8]) -> Result<BytePlan, Refusal>
    ensures { plan_result result ≡ byte_plan bytes.now }
{
    let mut row: [u32; limits::ROW] = blank();
    let head = read(bytes, &mut row)?;
    Ok(BytePlan { head, row })
}

// Writes a plan and answers how many bytes it has: they fill the first of the lent bytes, the rest of which is untouched, as all of them are if the plan is
// refused.
pub fn write(head: Head, row: &[u32], bytes: &mut [u8]) -> Result<usize, Refusal>
    ensures answer { length_result result ≡ write_answer head row.now (length bytes.old) }
    ensures memory { bytes.new ≡ bytes_after head row.now bytes.old }
{
    writing::check(head, row, bytes.len())?;
    let length = format::byte_length(head);
    writing::encode(head, row, &mut bytes[..length]);
    Ok(length)
}
