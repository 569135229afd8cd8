// The label, test 2, and an index, of test 3.
ghost use Rattle.std.specs.Prelude.{◌≡◌};
ghost use Rattle.rules.specs.Label.{label_rule};
ghost use Rattle.rules.specs.Index.{index_rule};

use descriptor::name::name_rule;
use sector::bytes::{all_are, byte, part, word};
use sector::numbers::numbers_of;

pub fn label_rule(n: usize, sector0: &[u8]) -> bool
    ensures { result ≡ label_rule n sector0.now }
{
    if !name_rule(part(sector0, 0, 10)) {
        return false;
    }
    if usize::from(word(sector0, 10)) != n {
        return false;
    }
    if byte(sector0, 13) != b'D' {
        return false;
    }
    if byte(sector0, 14) != b'S' {
        return false;
    }
    byte(sector0, 15) == b'K'
}

// Past the last number not all 128 are used, and the rest is zero. The bytes of the numbers are counted on the way, so that the index is read once.
pub(crate) fn index_rule(n: usize, index: &[u8]) -> bool
    ensures { result ≡ index_rule n index.now }
{
    let mut at = 0;
    for k in numbers_of(index) {
        if k < 2 {
            return false;
        }
        if usize::from(k) >= n {
            return false;
        }
        at += 2;
    }
    if at >= 256 {
        return false;
    }
    all_are(0, index, at)
}
