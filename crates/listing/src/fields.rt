// The fields of a line that are the listing's own: names, kinds, protection, marks. Each is laid down as the pieces of crate
// line are. How long the text can get is the rules' law `listing_short`.
ghost use Rattle.std.specs.Prelude.{◌≡◌, cond, [], ◌∷◌, ◌++◌, ◌≤◌, eqb, length, position};
ghost use Rattle.rules.specs.Kind.{is_protected};
ghost use Rattle.rules.specs.Descriptor.{status_of};
ghost use Rattle.rules.specs.Calls.Listing.{unpadded, kind_word, mark_field};
ghost use Rattle.line.specs.Laid.{Laid};

use descriptor::fields::Descriptor;
use line::put;
use rules::{Kind, Layout};

// Where the padding of a name begins, if it has some.
fn padding(name: &[u8]) -> Option<usize>
    ensures { result ≡ position (λ b. eqb b 32) name.now }
{
    name.iter().position(|byte| *byte == b' ')
}

// A name up to its padding.
fn unpadded(name: &[u8]) -> &[u8]
    ensures { result.now ≡ unpadded name.now }
{
    match padding(name) {
        Some(end) => &name[..end],
        None => name,
    }
}

// A name without its padding, then a space.
pub(crate) fn put_name(text: &mut [u8], at: usize, name: &[u8]) -> usize
    requires { (at ≤ 50000) × (length name.now ≤ 10) }
    ensures { Laid 11 text.old text.new at result (unpadded name.now ++ (32 ∷ [])) }
{
    let next = put(text, at, unpadded(name));
    put(text, next, b" ")
}

// The word of a kind, then a space.
pub(crate) fn put_kind(text: &mut [u8], at: usize, kind: Kind) -> usize
    requires { at ≤ 100000 }
    ensures { Laid 8 text.old text.new at result (kind_word kind ++ (32 ∷ [])) }
{
    match kind {
        Kind::Program { .. } => put(text, at, b"PROGRAM "),
        Kind::Fixed { internal: true, .. } => put(text, at, b"INT/FIX "),
        Kind::Fixed {
            internal: false,
            ..
        } => put(text, at, b"DIS/FIX "),
        Kind::Variable { internal: true, .. } => put(text, at, b"INT/VAR "),
        Kind::Variable {
            internal: false,
            ..
        } => put(text, at, b"DIS/VAR "),
    }
}

// P for a protected file or U for another.
pub(crate) fn put_protection(text: &mut [u8], at: usize, descriptor: &Descriptor<'_>) -> usize
    requires { at ≤ 100000 }
    ensures { Laid 1 text.old text.new at result (cond (is_protected (status_of descriptor.now.bytes.now)) 0x50 0x55 ∷ []) }
{
    if descriptor.is_protected() {
        return put(text, at, b"P");
    }
    put(text, at, b"U")
}

// By the rule with marks M for a marked file or a hyphen for another; and the end of its line.
pub(crate) fn put_mark(
    layout: Layout,
    text: &mut [u8],
    at: usize,
    descriptor: &Descriptor<'_>,
) -> usize
    requires { at ≤ 100000 }
    ensures { Laid 3 text.old text.new at result (mark_field layout (status_of descriptor.now.bytes.now) ++ (10 ∷ [])) }
{
    if layout.marks {
        if descriptor.is_marked() {
            return put(text, at, b" M\n");
        }
        return put(text, at, b" -\n");
    }
    put(text, at, b"\n")
}
