// Status and kind.
ghost use Rattle.std.specs.Prelude.{◌≡◌};
ghost use Rattle.rules.specs.Kind.{program_length, allowed_bits, status_rule, marking, kind_of};
ghost use Rattle.rules.specs.Calls.Listing.{kind_length};

use rules::{Kind, Layout};

// Whether a status has allowed bits alone, and a program's is neither internal nor variable.
pub fn status_rule(layout: Layout, status: usize) -> bool
    ensures { result ≡ status_rule (allowed_bits layout) status }
{
    let program = status % 2;
    let internal = status / 2 % 2;
    let protected = status / 8 % 2;
    let variable = status / 128 % 2;
    let plain = program + 2 * internal + 8 * protected + 128 * variable;
    // The layout is asked only of a status that has more than document 01's bits.
    if status != plain {
        if !layout.marks {
            return false;
        }
        if status != plain + 16 {
            return false;
        }
    }
    if program == 1 {
        if internal == 1 {
            return false;
        }
        return variable != 1;
    }
    true
}

// The status of a file that a call makes or changes: by the rule with marks it has the mark.
pub fn marking(layout: Layout, status: u8) -> u8
    ensures { result ≡ marking layout status }
{
    if layout.marks {
        if status / 16 % 2 == 0 {
            return status + 16;
        }
    }
    status
}

// Past the full sectors the last is used up to the end offset; end offset 0 means that it is full too.
fn program_length(c: u16, end_offset: u8) -> usize
    ensures { result ≡ program_length c end_offset }
{
    let sectors = usize::from(c);
    if end_offset == 0 {
        return 256 * sectors;
    }
    if sectors == 0 {
        return usize::from(end_offset);
    }
    256 * (sectors - 1) + usize::from(end_offset)
}

// The kind of a file of that status, with its number of sectors, end offset and record length.
pub fn kind_of(status: usize, c: u16, end_offset: u8, record_length: usize) -> Kind
    ensures { result ≡ kind_of status c end_offset record_length }
{
    if status % 2 == 1 {
        return Kind::Program {
            length: program_length(c, end_offset),
        };
    }
    let internal = status / 2 % 2 == 1;
    if status / 128 % 2 == 1 {
        return Kind::Variable {
            record_length,
            internal,
        };
    }
    Kind::Fixed {
        record_length,
        internal,
    }
}

// A program's length in bytes, or else the record length.
pub fn kind_length(kind: Kind) -> usize
    ensures { result ≡ kind_length kind }
{
    match kind {
        Kind::Program { length } => length,
        Kind::Fixed { record_length, .. } => record_length,
        Kind::Variable { record_length, .. } => record_length,
    }
}
