// Formatting: an image becomes an empty volume. It takes any bytes, answers with its number, and writes nothing where it refuses.
#![tactic(auto)]

pub mod format;
