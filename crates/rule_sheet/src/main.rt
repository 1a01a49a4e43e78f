// A rule sheet into a plan file: reads a sheet from standard input and writes the bytes of its plan to standard output. A refused sheet writes nothing
// there, so that no broken plan is left behind, and one line, `refused ` and the number, to standard error.
#![tactic(auto)]

// The buffer holds more than a sheet, so that a longer input is never taken for one. A sheet that could not be read has no plan.
fn main(rt: HostRuntime) {
    let mut bytes = io::buffer();
    let input = streams::read_all(
        &mut rt.stdin(),
        &mut bytes,
        b"rule_sheet: standard input",
        &mut rt.stderr(),
    );
    if let Ok(read) = input {
        convert(&rt, &bytes[..read.length]);
    }
}

// The buffer for the plan holds more than the longest.
fn convert(rt: &HostRuntime, bytes: &[u8]) {
    let mut plan = io::buffer();
    match sheet_plan::write_plan(bytes, &mut plan) {
        Ok(n) => {
            let _ = streams::write_all(
                &mut rt.stdout(),
                &plan[..n],
                b"rule_sheet: standard output",
                &mut rt.stderr(),
            );
        }
        Err(refusal) => {
            let _ = eprintln!(rt; "refused {}", refusal.number());
        }
    }
}
