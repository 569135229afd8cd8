// Which of many runs of bytes may be equal: a sum of each, and a table of the places that were entered under a sum.
#![tactic(auto)]

pub mod sum;
pub mod table;
