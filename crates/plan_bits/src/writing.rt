// Writing: the bits of a plan, byte by byte.
ghost use Rattle.std.specs.Prelude.{◌≡◌, ◌+◌, ◌*◌, ◌≤◌, length, get_or, take, drop};
ghost use Rattle.model.specs.Format.{number, plan_bits, filled_bits, byte_length, bytes_of};
ghost use Rattle.model.specs.Refusal.{Accepted, refused_with, write_refusal};

use crate::{bits, format};
use model::{Head, Refusal};
use plan::check_plan;

// The bit at a position of a plan, 0 past its end.
fn bit(head: Head, row: &[u32], at: usize) -> u32
    ensures { result ≡ get_or (plan_bits head row.now) at 0 }
{
    if at < format::MONTHS {
        return bits::digit(head.months, format::MONTHS - 1 - at);
    }
    let after_months = at - format::MONTHS;
    if after_months < format::OPENING {
        return bits::digit(head.opening, format::OPENING - 1 - after_months);
    }
    let after_opening = after_months - format::OPENING;
    if after_opening < format::SIZES {
        return bits::digit(head.sizes, format::SIZES - 1 - after_opening);
    }
    let after_sizes = after_opening - format::SIZES;
    if after_sizes < format::INCOME {
        return bits::digit(head.income, format::INCOME - 1 - after_sizes);
    }
    let after_head = after_sizes - format::INCOME;
    let i = after_head / format::NUMBER;
    if i < row.len() {
        // std has no From that makes a u32 a usize.
        return bits::digit(
            row[i] as usize,
            format::NUMBER - 1 - after_head % format::NUMBER,
        );
    }
    0
}

// The byte that starts at a position of a plan.
fn byte(head: Head, row: &[u32], from: usize) -> u8
    requires { Accepted head row.now × (from + 8 ≤ 8 * byte_length head) }
    ensures { result ≡ number (take 8 (drop from (filled_bits head row.now))) }
{
    let mut x: u32 = 0;
    for k in 0..8 {
        x = x * 2 + bit(head, row, from + k);
    }
    // Proved to fit: TryFrom would add an error that never comes.
    x as u8
}

// The bytes of a plan.
pub fn encode(head: Head, row: &[u32], bytes: &mut [u8])
    requires { Accepted head row.now × (length bytes.old ≡ byte_length head) }
    ensures { bytes.new ≡ bytes_of head row.now }
{
    for i in 0..bytes.len() {
        bytes[i] = byte(head, row, 8 * i);
    }
}

// The first refusal of the table that fits a head, a row and lent bytes of the given length.
pub fn check(head: Head, row: &[u32], room: usize) -> Result<(), Refusal>
    ensures { refused_with result ≡ write_refusal head row.now room }
{
    check_plan(head, row)?;
    if room < format::byte_length(head) {
        return Err(Refusal::Workspace);
    }
    Ok(())
}
