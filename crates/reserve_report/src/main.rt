// The reserve report: reads one plan from standard input and writes its report, or why it is refused, to standard output.
#![tactic(auto)]

// The buffer holds more than the longest plan, so that a longer input is never taken for one. A plan that could not be read has no report.
fn main(rt: HostRuntime) {
    let mut bytes = io::buffer();
    let input = streams::read_all(
        &mut rt.stdin(),
        &mut bytes,
        b"reserve_report: standard input",
        &mut rt.stderr(),
    );
    if let Ok(read) = input {
        print(&rt, &bytes[..read.length]);
    }
}

fn print(rt: &HostRuntime, bytes: &[u8]) {
    let mut text = io::large_buffer();
    let n = report_text::report(bytes, &mut text);
    let _ = streams::write_all(
        &mut rt.stdout(),
        &text[..n],
        b"reserve_report: standard output",
        &mut rt.stderr(),
    );
}
