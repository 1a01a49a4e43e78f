// One call on a sheet, and its line: the refusal's number, what was answered, and each number of the lent memory after it.
ghost use Rattle.std.specs.Prelude.{◌≡◌, length, replicate};
ghost use Rattle.test_sheets.specs.Rooms.{row_capacity, byte_capacity};

use crate::STDOUT_FILENO;
use model::limits;

// Numbers more than any call needs, to see that they stay as they were; specs/Rooms.antt has both rooms for the contracts.
const ROW: usize = limits::ROW + 6;

const BYTES: usize = 1800;

// The second `ensures` gives the length, which lending a part of the array needs. One function for any number and length would need it as a const
// parameter that its contract names too, and would be no plainer than these two.
fn row() -> [u32; ROW]
    ensures filled { result ≡ replicate row_capacity 4294967295 }
    ensures sized { row_capacity ≡ length result }
{
    [u32::MAX; ROW]
}

fn bytes() -> [u8; BYTES]
    ensures filled { result ≡ replicate byte_capacity 255 }
    ensures sized { byte_capacity ≡ length result }
{
    [u8::MAX; BYTES]
}

pub fn read(room: usize, sheet: &[u8]) {
    let mut row = row();
    if room <= ROW {
        read_into(sheet, &mut row[..room]);
    }
}

fn read_into(sheet: &[u8], row: &mut [u32]) {
    match sheet_plan::read(sheet, row) {
        Ok(head) => start(0, [head.months, head.opening, head.sizes, head.income]),
        Err(refusal) => start(refusal.number(), [0; 4]),
    }
    end_with(row);
}

pub fn write_plan(room: usize, sheet: &[u8]) {
    let mut plan = bytes();
    if room <= BYTES {
        write_into(sheet, &mut plan[..room]);
    }
}

fn write_into(sheet: &[u8], plan: &mut [u8]) {
    match sheet_plan::write_plan(sheet, plan) {
        Ok(length) => start(0, [length]),
        Err(refusal) => start(refusal.number(), [0]),
    }
    end_with(plan);
}

// The reserve report of the sheet's plan.
pub fn report(sheet: &[u8]) {
    let mut plan = io::buffer();
    match sheet_plan::write_plan(sheet, &mut plan) {
        Ok(n) => print_report(&plan[..n]),
        Err(refusal) => {
            io::write_all(STDOUT_FILENO, b"refused");
            next(u64::from(refusal.number()));
            end();
        }
    }
}

fn print_report(plan: &[u8]) {
    let mut text = io::large_buffer();
    let n = report_text::report(plan, &mut text);
    io::write_all(STDOUT_FILENO, &text[..n]);
}

// The refusal's number, 0 where nothing is refused, and the numbers answered, which are 0 where it is.
fn start<const N: usize>(refusal: u32, answered: [usize; N]) {
    io::print_decimal(STDOUT_FILENO, u64::from(refusal));
    for x in answered {
        // std has no From that makes a usize a u64.
        next(x as u64);
    }
}

fn end_with<T: Copy + Into<u64>>(numbers: &[T]) {
    for x in numbers {
        next((*x).into());
    }
    end();
}

fn next(x: u64) {
    io::write_all(STDOUT_FILENO, b" ");
    io::print_decimal(STDOUT_FILENO, x);
}

fn end() {
    io::write_all(STDOUT_FILENO, b"\n");
}
