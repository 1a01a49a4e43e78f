// The room that the program lends, for the code; specs/Rooms.antt has it for the contracts, and the proofs hold the two equal.
use model::limits;

// Numbers more than any call needs, to see that they stay as they were.
const SPARE: usize = 6;

pub const ROW: usize = limits::ROW + SPARE;

pub const WORKSPACE: usize = limits::WORKSPACE + SPARE;

pub const BOUNDS: usize = limits::BOUNDS + SPARE;

// More than the 2,480 bytes of the longest plan that the bits of a head can ask for, most of which are refused.
pub const BYTES: usize = 2560;
