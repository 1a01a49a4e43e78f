// Reading: what bytes mean, and the first thing wrong with them.
ghost use Rattle.std.specs.Prelude.{◌≡◌, ◌≤◌, length, drop};
ghost use Rattle.model.specs.Format.{number_width, head_bits, head_bytes, bits_of, fields, head_of};
ghost use Rattle.model.specs.Refusal.{refused_with, plan_refusal, read_refusal};
ghost use Rattle.plan_bits.specs.Rows.{RowWithin};

use crate::{bits, format};
use model::{Head, Refusal, limits};
use plan::lengths::row_length;
use plan::{check_head, check_plan};

// The head that bytes begin with.
pub fn head_of(bytes: &[u8]) -> Head
    requires { head_bytes ≤ length bytes.now }
    ensures { result ≡ head_of bytes.now }
{
    // std has no From that makes a u32 a usize.
    let months = bits::field(bytes, 0, format::MONTHS) as usize;
    let opening = bits::field(bytes, format::MONTHS, format::OPENING) as usize;
    let sizes = bits::field(bytes, format::BEFORE_SIZES, format::SIZES) as usize;
    let income = bits::field(bytes, format::BEFORE_INCOME, format::INCOME) as usize;
    Head {
        months,
        opening,
        sizes,
        income,
    }
}

// The numbers that follow the head, as many as the row has.
pub fn decode(bytes: &[u8], row: &mut [u32])
    requires { RowWithin bytes.now (length row.old) }
    ensures { row.new ≡ fields number_width (length row.old) (drop head_bits (bits_of bytes.now)) }
{
    for i in 0..row.len() {
        row[i] = bits::field(bytes, format::HEAD + format::NUMBER * i, format::NUMBER);
    }
}

// The checks of a head and the numbers that follow it, which are read into a row of its own.
fn check_numbers(bytes: &[u8], head: Head, count: usize) -> Result<(), Refusal>
    requires { RowWithin bytes.now count }
    ensures { refused_with result ≡ plan_refusal head (fields number_width count (drop head_bits (bits_of bytes.now))) }
{
    let mut row = [0u32; limits::ROW];
    decode(bytes, &mut row[..count]);
    check_plan(head, &row[..count])
}

// The first refusal of the table that fits bytes and a lent row of the given length.
pub fn check(bytes: &[u8], room: usize) -> Result<(), Refusal>
    ensures { refused_with result ≡ read_refusal bytes.now room }
{
    if bytes.len() < format::HEAD_BYTES {
        return Err(Refusal::Stub);
    }
    let head = head_of(bytes);
    check_head(head)?;
    if bytes.len() != format::byte_length(head) {
        return Err(Refusal::Length);
    }
    let end = format::bit_length(head);
    let fill = 8 * bytes.len() - end;
    if bits::field(bytes, end, fill) != 0 {
        return Err(Refusal::Padding);
    }
    let count = row_length(head);
    check_numbers(bytes, head, count)?;
    if room < count {
        return Err(Refusal::Workspace);
    }
    Ok(())
}
