// One call a record, and its line: the refusal's number, 0 if there is none, what was answered, and the lent memory after it.
ghost use Rattle.std.specs.Prelude.{◌≡◌, length, replicate};
ghost use Rattle.test_vectors.specs.Rooms.{workspace_capacity};

use crate::record::{Kind, Record};
use crate::{format, openings, space, sums, text};
use model::limits::PLACES;
use model::{Ask, Bounds, Head, Question, Refusal};

pub fn call(record: Record, row: &[u32]) {
    let head = record.head;
    let number = record.number;
    match record.kind {
        // It asks for no call.
        Kind::Row => (),
        Kind::Survive => lend(record, |workspace| {
            ask(head, Question::Survive, row, workspace)
        }),
        Kind::Both => lend(record, |workspace| {
            ask(head, Question::Both(number), row, workspace)
        }),
        Kind::High => lend(record, |workspace| {
            ask(head, Question::High(number), row, workspace)
        }),
        Kind::Low => lend(record, |workspace| {
            ask(head, Question::Low(number), row, workspace)
        }),
        Kind::Count => count(head, row),
        Kind::Write => format::write(record, row),
        Kind::Read => format::read(record),
        Kind::Ruin => lend(record, |workspace| ruin(head, number, row, workspace)),
        Kind::Claims => sums::claims(head, number, row),
        Kind::Least => lend(record, |workspace| {
            least(head, record.target, row, workspace)
        }),
        Kind::Openings => lend(record, |workspace| {
            openings::lend(head, number, record.fill, row, workspace)
        }),
        Kind::PlainSurvive => plain(head, Question::Survive, row),
        Kind::PlainBoth => plain(head, Question::Both(number), row),
        Kind::PlainHigh => plain(head, Question::High(number), row),
        Kind::PlainLow => plain(head, Question::Low(number), row),
    }
}

// Lends a call a workspace, as much of it as the record says.
fn lend<F: FnOnce(&mut [u32])>(record: Record, call: F)
    requires { F.IsAlwaysCallable call }
{
    let room = record.room;
    let mut workspace = workspace(record.fill);
    if room <= space::WORKSPACE {
        call(&mut workspace[..room]);
    }
}

// The second `ensures` gives the length, which lending a part of the array needs.
fn workspace(fill: u32) -> [u32; space::WORKSPACE]
    ensures filled { result ≡ replicate workspace_capacity fill }
    ensures sized { workspace_capacity ≡ length result }
{
    [fill; space::WORKSPACE]
}

fn ask(head: Head, question: Question, row: &[u32], workspace: &mut [u32]) {
    bounds(engine::ask(Ask { head, question }, row, workspace));
    text::memory(workspace);
    text::end();
}

// The plain engine is lent nothing.
fn plain(head: Head, question: Question, row: &[u32]) {
    bounds(plain_engine::ask(Ask { head, question }, row));
    text::end();
}

fn ruin(head: Head, month: usize, row: &[u32], workspace: &mut [u32]) {
    bounds(engine::ruin_in_month(head, month, row, workspace));
    text::memory(workspace);
    text::end();
}

fn least(head: Head, target: u32, row: &[u32], workspace: &mut [u32]) {
    match opening_search::least(head, row, target, workspace) {
        Ok(found) => {
            let bounds = found.bounds;
            text::answered(&[
                // std has no From that makes a usize a u64.
                found.opening as u64,
                u64::from(bounds.lower),
                u64::from(bounds.upper),
            ]);
        }
        Err(refusal) => text::refused(refusal, 3),
    }
    text::memory(workspace);
    text::end();
}

// What a call that has two bounds answers.
fn bounds(answer: Result<Bounds, Refusal>) {
    match answer {
        Ok(bounds) => text::answered(&[u64::from(bounds.lower), u64::from(bounds.upper)]),
        Err(refusal) => text::refused(refusal, 2),
    }
}

fn count(head: Head, row: &[u32]) {
    match count_row::count_claims(head, row) {
        Ok(counts) => {
            text::answered(&[]);
            text::count_row(&counts.lower, &counts.upper);
        }
        Err(refusal) => text::refused(refusal, 2 * PLACES),
    }
    text::end();
}
