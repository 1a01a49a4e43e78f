// Survival of the plans on standard input, in ten-thousandths of both bounds: the figures of source document 000's tables 2 and 3, which
// docs/src/tables.py has. A plan comes as two bytes with its length, most significant first, and its bytes.
#![tactic(auto)]

ghost use Rattle.std.specs.Prelude.{◌≡◌};
ghost use Rattle.test_tables.specs.Rounded.{ten_thousandths};

use model::{Ask, Head, Question, SCALE, limits};
use plan::lengths::row_length;

// The descriptors that every program is started with.
const STDIN_FILENO: i32 = 0;

const STDOUT_FILENO: i32 = 1;

// A proved loop has to end, and nothing says that the input does, so the plans are counted.
fn main() {
    for _ in 0..u64::MAX {
        if !next_plan() {
            return;
        }
    }
}

// Whether there was a plan.
fn next_plan() -> bool {
    let mut size = [0u8; 2];
    if io::read_full(STDIN_FILENO, &mut size) < 2 {
        return false;
    }
    let length = usize::from(u16::from_be_bytes(size));
    let mut bytes = io::buffer();
    if bytes.len() < length {
        return false;
    }
    read_plan(&mut bytes[..length]);
    true
}

fn read_plan(bytes: &mut [u8]) {
    io::read_full(STDIN_FILENO, bytes);
    let Ok(plan) = codec::read_plan(bytes) else {
        return;
    };
    let row = plan.row;
    let used = row_length(plan.head);
    print_survival(plan.head, &row[..used]);
}

// Nothing is refused here: a plan that was read is accepted, and the workspace has room for every question.
fn print_survival(head: Head, row: &[u32]) {
    let mut workspace = [0u32; limits::WORKSPACE];
    let question = Question::Survive;
    let Ok(bounds) = engine::ask(Ask { head, question }, row, &mut workspace) else {
        return;
    };
    io::print_decimal(STDOUT_FILENO, rounded(bounds.lower));
    io::write_all(STDOUT_FILENO, b" ");
    io::print_decimal(STDOUT_FILENO, rounded(bounds.upper));
    io::write_all(STDOUT_FILENO, b"\n");
}

// Parts of the scale in ten-thousandths, to the nearest.
#[tactic(auto, unfolding(crate::specs::Rounded::ten_thousandths, model::specs::Scale::S))]
fn rounded(x: u32) -> u64
    ensures { result ≡ ten_thousandths x }
{
    let scale = u64::from(SCALE);
    (u64::from(x) * 10000 + scale / 2) / scale
}
