// The room that the program lends, for the code; specs/Rooms.antt has it for the contracts, and the proofs hold the two equal.
ghost use Rattle.std.specs.Prelude.{◌≡◌, length, replicate};
ghost use Rattle.test_mixtures.specs.Rooms.{row_capacity, workspace_capacity, byte_capacity};

use model::limits;

// Numbers more than any call needs, to see that they stay as they were.
const SPARE: usize = 6;

pub const ROW: usize = limits::ROWS + SPARE;

pub const WORKSPACE: usize = limits::WORKSPACE + SPARE;

// More than the bytes of every mix, and of every row.
pub const BYTES: usize = 16384;

// The second `ensures` of each gives the length, which lending a part of the array needs.
pub fn row() -> [u32; ROW]
    ensures filled { result ≡ replicate row_capacity 0 }
    ensures sized { row_capacity ≡ length result }
{
    [0; ROW]
}

pub fn workspace(fill: u32) -> [u32; WORKSPACE]
    ensures filled { result ≡ replicate workspace_capacity fill }
    ensures sized { workspace_capacity ≡ length result }
{
    [fill; WORKSPACE]
}

pub fn bytes() -> [u8; BYTES]
    ensures filled { result ≡ replicate byte_capacity 0 }
    ensures sized { byte_capacity ≡ length result }
{
    [0; BYTES]
}
