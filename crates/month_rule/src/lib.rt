// The month rule over all months: the rows of a question and the two halves of a workspace, taken back. What its functions require, an accepted plan and a
// question within its limits give.
#![tactic(auto)]

pub mod halves;
pub mod months;
