// One month of the month rule over rows of values in lent memory: a row, and the rows of a question. What its functions require, an accepted plan and a
// question within its limits give.
#![tactic(auto)]

pub mod rows;
