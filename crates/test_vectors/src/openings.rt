// All openings in one call, with its line: the refusal's number, the lent row of bounds and the workspace.
ghost use Rattle.std.specs.Prelude.{◌≡◌, length, replicate};
ghost use Rattle.test_vectors.specs.Rooms.{bounds_capacity};

use crate::{space, text};
use model::Head;
use survival::all_openings;

// Of the row of bounds as many numbers are lent as the record says.
pub fn lend(head: Head, places: usize, fill: u32, row: &[u32], workspace: &mut [u32]) {
    let mut bounds = bounds(fill);
    if places <= space::BOUNDS {
        call(head, row, workspace, &mut bounds[..places]);
    }
}

// The second `ensures` gives the length, which lending a part of the array needs.
fn bounds(fill: u32) -> [u32; space::BOUNDS]
    ensures filled { result ≡ replicate bounds_capacity fill }
    ensures sized { bounds_capacity ≡ length result }
{
    [fill; space::BOUNDS]
}

fn call(head: Head, row: &[u32], workspace: &mut [u32], bounds: &mut [u32]) {
    match all_openings(head, row, workspace, bounds) {
        Ok(()) => text::answered(&[]),
        Err(refusal) => text::refused(refusal, 0),
    }
    text::memory(bounds);
    text::memory(workspace);
    text::end();
}
