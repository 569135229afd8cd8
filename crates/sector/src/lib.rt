// The leaves of an image: readings of bytes, parts, sectors and the numbers of an index, the index of a directory, writing into a lent buffer, and the order of writes. Each answers for any bytes with
// what the rules' definition of the same name says; those with a `requires` ask a bound on a number or equal lengths.
#![tactic(auto)]

pub mod buffer;
pub mod bytes;
pub mod directories;
pub mod numbers;
pub mod order;
