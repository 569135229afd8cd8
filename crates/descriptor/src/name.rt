// Names: the rule, where a name breaks it, and the order.
ghost use Rattle.std.specs.Prelude.{◌≡◌, None, Some, true, cond, eqb, drop};
ghost use Rattle.rules.specs.Name.{name_byte, name_rule, wrong_from, wrong_place, precedes};
ghost use Rattle.rules.specs.Outcome.{if_wrong};

use sector::bytes::all_are;

fn name_byte(b: u8) -> bool
    ensures { result ≡ name_byte b }
{
    if b < 33 {
        return false;
    }
    if b > 126 {
        return false;
    }
    b != b'.'
}

// Ten bytes: one to ten bytes of a name, then spaces.
pub fn name_rule(name: &[u8]) -> bool
    ensures { result ≡ name_rule name.now }
{
    if name.len() != 10 {
        return false;
    }
    if !name_byte(name[0]) {
        return false;
    }
    for (i, b) in name.iter().enumerate() {
        if *b == b' ' {
            return all_are(b' ', name, i + 1);
        }
        if !name_byte(*b) {
            return false;
        }
    }
    true
}

// Behind the first `used` bytes a name has spaces alone: the place of what is none; or 0, where no byte stands before them.
fn wrong_padding(name: &[u8], used: usize) -> Option<usize>
    ensures { result ≡ if_wrong (wrong_from true used (drop used name.now)) Some (cond (eqb used 0) (Some 0) None) }
{
    for behind in used..name.len() {
        if name[behind] != b' ' {
            return Some(behind);
        }
    }
    if used == 0 {
        return Some(0);
    }
    None
}

// Where a name is wrong, for a call that takes one: the place of its first wrong byte, or 10 where it is not ten bytes long. `name_rule` says only whether,
// which is all that the judge asks of the names on a disk.
pub fn wrong_place(name: &[u8]) -> Option<usize>
    ensures { result ≡ wrong_place name.now }
{
    if name.len() != 10 {
        return Some(10);
    }
    for (used, here) in name.iter().enumerate() {
        if *here == b' ' {
            return wrong_padding(name, used);
        }
        if !name_byte(*here) {
            return Some(used);
        }
    }
    None
}

// Whether the first name comes before the second. By bytes and not by the slices' own order, which makes an `Ordering` of each byte: of names that
// begin alike that takes half as long again.
pub fn precedes(first: &[u8], second: &[u8]) -> bool
    ensures { result ≡ precedes first.now second.now }
{
    for (i, a) in first.iter().enumerate() {
        if i >= second.len() {
            return false;
        }
        let b = second[i];
        if *a != b {
            return *a < b;
        }
    }
    first.len() < second.len()
}
