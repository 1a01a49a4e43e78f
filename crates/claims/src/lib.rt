// The claim sum of the month rule, over the sizes that are not empty and from the largest down.
#![tactic(auto)]

pub mod sizes;
pub mod sum;
pub mod table;
