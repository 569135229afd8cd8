// The label and the indexes of the packed form: the label area as it was but for the index sectors of the entries, which are numbered from 2 on; and
// the indexes, each with the numbers of its files' new descriptors.
ghost use Rattle.std.specs.Prelude.{◌≡◌, ◌+◌, ◌*◌, ◌≤◌, ◌<◌, length};
ghost use Rattle.rules.specs.Bytes.{splice};
ghost use Rattle.rules.specs.Chain.{run};
ghost use Rattle.rules.specs.Index.{numbers, index_of};
ghost use Rattle.rules.specs.Volume.{indexes, files_of, catalogues};
ghost use Rattle.rules.specs.Sound.{Sound};
ghost use Rattle.rules.specs.Calls.Pack.{label_area, packed_label, packed_indexes};

use rules::Layout;
use sector::buffer::lay;
use sector::bytes::{part, sector_of};
use sector::directories::index_at;
use sector::numbers::{lay_number, numbers_of};

// The label, over the front of the target. Gives the sector behind the indexes.
pub(crate) fn lay_label(layout: Layout, source: &[u8], target: &mut [u8]) -> u16
    requires { Sound layout source.now × (56 ≤ length target.old) }
    ensures value { result ≡ 1 + length (indexes layout source.now) }
    ensures target_after { target.new ≡ splice target.old 0 (packed_label layout (label_area layout source.now)) }
{
    lay(target, 0, part(sector_of(source, 0), 0, 56));
    // Only the directories that are there take a number.
    let mut number = 2;
    for directory in 1..4 {
        if index_at(layout, source, directory).is_some() {
            lay_number(target, 18 + 12 * directory, number);
            number += 1;
        }
    }
    number
}

// An index with as many numbers as the source's, from `first` on, and zeros behind them. Gives the number behind the last.
fn lay_index(index: &mut [u8], old: &[u8], first: u16) -> u16
    requires { (length index.old ≡ 256) × (length old.now ≤ 256) × (first < 4096) }
    ensures value { result ≡ first + length (numbers old.now) }
    ensures index_after { index.new ≡ index_of (run first (length (numbers old.now))) }
{
    index.fill(0);
    let end = first + numbers_of(old).count() as u16;
    for number in first..end {
        lay_number(index, 2 * usize::from(number - first), number);
    }
    end
}

// The indexes from sector 1 on, for descriptors from sector `first` on. Gives the sector behind the descriptors.
pub(crate) fn lay_indexes(layout: Layout, source: &[u8], target: &mut [u8], first: u16) -> u16
    requires { Sound layout source.now × (length target.old ≡ length source.now) × (first ≡ 1 + length (indexes layout source.now)) }
    ensures value { result ≡ first + length (files_of source.now (indexes layout source.now)) }
    ensures target_after { target.new ≡ splice target.old 256 (packed_indexes first (catalogues layout source.now)) }
{
    let mut next = first;
    let mut to = 256;
    for directory in 0..4 {
        if let Some(i) = index_at(layout, source, directory) {
            let end = to + 256;
            next = lay_index(&mut target[to..end], sector_of(source, i), next);
            to = end;
        }
    }
    next
}
