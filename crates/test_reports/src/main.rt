// The reserve reports of the plans on standard input, one after another, which the gate holds to those of docs/src/reference.py. A plan comes
// as two bytes with its length, most significant first, and its bytes.
#![tactic(auto)]

// The descriptors that every program is started with.
const STDIN_FILENO: i32 = 0;

const STDOUT_FILENO: i32 = 1;

fn main() {
    let mut plans = io::large_buffer();
    let n = io::read_full(STDIN_FILENO, &mut plans);
    print_reports(&plans[..n]);
}

// A plan that is cut off, since the input ends, has no report. A turn is as long as its plan, so that no `for` goes over them.
fn print_reports(mut plans: &[u8]) {
    while let Some((size, after)) = plans.split_first_chunk::<2>() {
        let length = usize::from(u16::from_be_bytes(*size));
        let Some((plan, left)) = after.split_at_checked(length) else {
            return;
        };
        print_report(plan);
        plans = left;
    }
}

fn print_report(plan: &[u8]) {
    let mut text = io::large_buffer();
    let n = report_text::report(plan, &mut text);
    io::write_all(STDOUT_FILENO, &text[..n]);
}
