// Plan bytes bit by bit: the layer below reading and writing. What its functions require, the checks of a plan give.
#![tactic(auto)]

pub mod bits;
pub mod format;
pub mod reading;
pub mod writing;
