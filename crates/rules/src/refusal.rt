// Why an image is no sound volume, and why a call refuses: the numbers of the table, by name.
ghost use Rattle.std.specs.Prelude.{◌≡◌};
ghost use Rattle.rules.specs.Refusal.{fault_number, refusal_number};
ghost use Rattle.rules.specs.declared.refusal.Refusal.TheVariants.{Unsound};
ghost use Rattle.rules.specs.declared.refusal.RenameRefusal.TheVariants.{Other};

// The first fault of an image that is no sound volume, in the table's order: the numbers 1 to 6.
#[derive(Clone, Copy, Debug, PartialEq, Eq)]
pub enum Fault {
    Length,
    Label,
    Index,
    Descriptor,
    Holders,
    Map,
}

// Why a call refuses: the image has a fault; or, from 7 to 15, a name is wrong, at that place; there is no file of the name, or one already; the file is
// protected; a directory, the disk or a chain is full; the file is of the other kind; an argument is out of its range.
#[derive(Clone, Copy, Debug, PartialEq, Eq)]
pub enum Refusal {
    Unsound(Fault),
    Misnamed(usize),
    Absent,
    Present,
    Protected,
    DirectoryFull,
    DiskFull,
    ChainFull,
    OtherKind,
    Argument,
}

// The same of a rename, which takes two names.
#[derive(Clone, Copy, Debug, PartialEq, Eq)]
pub enum RenameRefusal {
    OldMisnamed(usize),
    NewMisnamed(usize),
    Other(Refusal),
}

impl From<Fault> for u32 {
    ghost from_gives = { λ fault number. number ≡ fault_number fault };

    fn from(fault: Fault) -> u32 {
        match fault {
            Fault::Length => 1,
            Fault::Label => 2,
            Fault::Index => 3,
            Fault::Descriptor => 4,
            Fault::Holders => 5,
            Fault::Map => 6,
        }
    }
}

impl From<Refusal> for u32 {
    ghost from_gives = { λ refusal number. number ≡ refusal_number refusal };

    fn from(refusal: Refusal) -> u32 {
        match refusal {
            Refusal::Unsound(fault) => u32::from(fault),
            Refusal::Misnamed(_) => 7,
            Refusal::Absent => 8,
            Refusal::Present => 9,
            Refusal::Protected => 10,
            Refusal::DirectoryFull => 11,
            Refusal::DiskFull => 12,
            Refusal::ChainFull => 13,
            Refusal::OtherKind => 14,
            Refusal::Argument => 15,
        }
    }
}

impl From<Fault> for Refusal {
    ghost from_gives = { λ fault refusal. refusal ≡ Unsound fault };

    fn from(fault: Fault) -> Refusal {
        Refusal::Unsound(fault)
    }
}

impl From<Refusal> for RenameRefusal {
    ghost from_gives = { λ refusal rename. rename ≡ Other refusal };

    fn from(refusal: Refusal) -> RenameRefusal {
        RenameRefusal::Other(refusal)
    }
}

impl From<Fault> for RenameRefusal {
    ghost from_gives = { λ fault rename. rename ≡ Other (Unsound fault) };

    fn from(fault: Fault) -> RenameRefusal {
        RenameRefusal::Other(Refusal::Unsound(fault))
    }
}
