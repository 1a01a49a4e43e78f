// The report on a mixture: reads the bytes of a mix from standard input and writes its report, or why it is refused, to standard output.
#![tactic(auto)]

// The buffer holds more than the longest mix, so that a longer input is never taken for one. A mix that could not be read has no report.
fn main(rt: HostRuntime) {
    let mut bytes = io::large_buffer();
    let input = streams::read_all(
        &mut rt.stdin(),
        &mut bytes,
        b"mix_report: standard input",
        &mut rt.stderr(),
    );
    if let Ok(read) = input {
        print(&rt, &bytes[..read.length]);
    }
}

fn print(rt: &HostRuntime, bytes: &[u8]) {
    let mut text = [0u8; mixture_text::TEXT];
    let n = mixture_text::report(bytes, &mut text);
    let _ = streams::write_all(
        &mut rt.stdout(),
        &text[..n],
        b"mix_report: standard output",
        &mut rt.stderr(),
    );
}
