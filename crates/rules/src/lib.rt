// The value types of the rules. What they mean is said in specs/, which holds the paper as definitions;
// proofs/ holds the laws about them.
#![tactic(auto)]

mod refusal;

pub use refusal::{Fault, Refusal, RenameRefusal};

// The rules that an image is read by: whether status bit 10 hex is the backup mark, "changed since backup", or forbidden; and
// whether sector 0 has entries of directories, as in the second edition, or bytes that are carried there, as in the first.
#[derive(Clone, Copy, Debug, PartialEq, Eq)]
pub struct Layout {
    pub marks: bool,
    pub directories: bool,
}

// A block of a chain: its first sector, and the last offset in the file that it covers.
#[derive(Clone, Copy, Debug, PartialEq, Eq)]
pub struct Block {
    pub start: usize,
    pub last: usize,
}

// A file's kind, each case with its own numbers: a program with its length in bytes, a fixed and a
// variable file with its record length and whether it is internal (else display).
#[derive(Clone, Copy, Debug, PartialEq, Eq)]
pub enum Kind {
    Program {
        length: usize,
    },
    Fixed {
        record_length: usize,
        internal: bool,
    },
    Variable {
        record_length: usize,
        internal: bool,
    },
}

// A row of the catalogue: name, kind, sectors, protection.
#[derive(Clone, Copy, Debug, PartialEq, Eq)]
pub struct Row {
    pub name: [u8; 10],
    pub kind: Kind,
    pub sectors: usize,
    pub protected: bool,
}

// What a summary counts: the sectors of a volume, the files of all directories and the free sectors.
#[derive(Clone, Copy, Debug, PartialEq, Eq)]
pub struct Totals {
    pub sectors: usize,
    pub files: usize,
    pub free: usize,
}

// A file in an index: its place there, and its descriptor's sector.
#[derive(Clone, Copy, Debug, PartialEq, Eq)]
pub struct FileAt {
    pub place: usize,
    pub sector: u16,
}

// What looking for a name gives: the sector of the index, and the file of that name in it, if there is one.
#[derive(Clone, Copy, Debug, PartialEq, Eq)]
pub struct Looked {
    pub index: u16,
    pub file: Option<FileAt>,
}
