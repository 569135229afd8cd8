// What the programs have in common on the command line and on the screen: the options, the name of an image as a line
// shows it, the grounds in words, why a call to the system failed, and the last line of a run, which counts the images
// by their numbers.
#![tactic(auto)]

pub mod ground;
pub mod images;
pub mod mark;
pub mod name;
pub mod options;
pub mod reason;
pub mod tally;
