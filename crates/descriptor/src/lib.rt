// The leaves of a descriptor: names, status and kind, fields, and the blocks and places of a chain. Each answers for any bytes with
// what the rules' definition of the same name says; those with a `requires` ask a bound on a number alone.
#![tactic(auto)]

pub mod chain;
pub mod fields;
pub mod header;
pub mod kind;
pub mod name;
