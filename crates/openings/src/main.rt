// The planner's chart: reads one plan from standard input and writes the bounds of survival at each opening from 0 to the plan's, or why it is refused, to
// standard output.
#![tactic(auto)]

// The buffer holds more than the longest plan, so that a longer input is never taken for one. A plan that could not be read has no chart.
fn main(rt: HostRuntime) {
    let mut bytes = io::buffer();
    let input = streams::read_all(
        &mut rt.stdin(),
        &mut bytes,
        b"openings: standard input",
        &mut rt.stderr(),
    );
    if let Ok(read) = input {
        print(&rt, &bytes[..read.length]);
    }
}

fn print(rt: &HostRuntime, bytes: &[u8]) {
    let mut text = [0u8; chart::TEXT];
    let n = chart::chart(bytes, &mut text);
    let _ = streams::write_all(
        &mut rt.stdout(),
        &text[..n],
        b"openings: standard output",
        &mut rt.stderr(),
    );
}
