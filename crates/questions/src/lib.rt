// What is asked of a plan: the rows that each of the four questions needs, and when a call is turned away. The layer between the month rule and the
// calls, which share it.
#![tactic(auto)]

pub mod needs;
pub mod refusals;
