// Rows of survival held against a target: the walk back that is given up where no level reaches it, and the least level that does. The layer below the search
// for the least opening.
#![tactic(auto)]

pub mod rows;
