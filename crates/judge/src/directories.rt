// The directories: the entries of sector 0 and the indexes, test 3.
ghost use Rattle.std.specs.Prelude.{◌≡◌, ◌||◌, ◌+◌, ◌*◌, ◌<◌, length, drop};
ghost use Rattle.rules.specs.Bytes.{part};
ghost use Rattle.rules.specs.Sectors.{sector_of};
ghost use Rattle.rules.specs.Index.{index_rule};
ghost use Rattle.rules.specs.Directory.{entries, is_absent, is_named, entry_rule, entries_rule};
ghost use Rattle.rules.specs.Volume.{indexes, every};
ghost use Rattle.judge.specs.Entered.{three_entries};
ghost use Rattle.judge.specs.Claim.{Below};

use crate::system::index_rule;
use descriptor::name::name_rule;
use rules::Layout;
use sector::bytes::{all_are, part, same, sector_in, word};
use sector::directories::indexes_of;

// Whether one of the entries from the one at place `from` on has that name.
fn is_named(name: &[u8], sector0: &[u8], from: usize) -> bool
    ensures { result ≡ is_named name.now (drop from (three_entries sector0.now)) }
{
    for later in from..3 {
        let entry = part(sector0, 20 + 12 * later, 12);
        if same(name, part(entry, 0, 10)) {
            return true;
        }
    }
    false
}

// Whether the entry at that place is absent or keeps its rules.
fn entry_rule(n: usize, sector0: &[u8], place: usize) -> bool
    requires { place < 3 }
    ensures { result ≡ (is_absent (part sector0.now (20 + 12 * place) 12) || entry_rule n (part sector0.now (20 + 12 * place) 12) (drop (place + 1) (three_entries sector0.now))) }
{
    let entry = part(sector0, 20 + 12 * place, 12);
    if all_are(0, entry, 0) {
        return true;
    }
    let name = part(entry, 0, 10);
    if !name_rule(name) {
        return false;
    }
    let i = usize::from(word(entry, 10));
    if i < 2 {
        return false;
    }
    if i >= n {
        return false;
    }
    !is_named(name, sector0, place + 1)
}

pub fn entries_rule(layout: Layout, n: usize, sector0: &[u8]) -> bool
    ensures { result ≡ entries_rule n (entries layout sector0.now) }
{
    if !layout.directories {
        return true;
    }
    for place in 0..3 {
        if !entry_rule(n, sector0, place) {
            return false;
        }
    }
    true
}

// The rule of every index that is there.
pub fn indexes_rule(layout: Layout, n: usize, image: &[u8]) -> bool
    requires { (length image.now ≡ 256 * n) × Below n (indexes layout image.now) }
    ensures { result ≡ every (λ i. index_rule n (sector_of image.now i)) (indexes layout image.now) }
{
    for i in indexes_of(layout, image) {
        if !index_rule(n, sector_in(image, usize::from(i))) {
            return false;
        }
    }
    true
}
