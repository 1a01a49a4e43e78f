// The lines of the reserve report, one by one: the layer below the report's call. What its functions require, an accepted plan, a question within the limits
// and enough room give.
#![tactic(auto)]

pub mod answers;
pub mod lines;
