// The map in sector 0: its bits read and written, its free count, where a descriptor and data go, and the map of a volume laid down anew.
#![tactic(auto)]

pub mod bits;
pub mod choice;
pub mod free;
pub mod laid;
