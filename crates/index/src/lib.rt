// An index anew: with a number taken out, with one put in its place by name, and with all of them in the order of their names. Each answers for any bytes with what the
// rules' definitions say; numbers that do not fit into the sector are left out.
#![tactic(auto)]

ghost use Rattle.std.specs.Prelude.{◌≡◌, true, not, List, [], ◌∷◌, ◌++◌, ℕ, ◌+◌, ◌*◌, ◌^◌, ◌<◌, length, drop, replicate};
ghost use Rattle.rules.specs.Bytes.{splice};
ghost use Rattle.rules.specs.Index.{numbers, numbers_bytes, index_of, without, IsIndex};
ghost use Rattle.rules.specs.Sectors.{sector_count, written};
ghost use Rattle.rules.specs.Volume.{files_in, name_in, placed};
ghost use Rattle.rules.specs.Outcome.{write};
ghost use Rattle.rules.specs.Calls.Repair.{named_in, distinct_rule, ordered};
ghost use Rattle.sector.specs.Numbers.{numbers_left};
ghost use Rattle.index.specs.Front.{InFront};

use descriptor::fields::descriptor_of;
use descriptor::name::precedes;
use sector::buffer::write_sector;
use sector::bytes::{same, sector_of, word};
use sector::numbers::{Numbers, lay_number, numbers_of};

// The numbers that are left of an old index, laid one behind the other into the new one from byte `at` on.
fn copy_numbers(index: &mut [u8], at: usize, left: Numbers<'_>)
    requires { at + 2 * length (numbers_left left) < 2 ^ 64 }
    ensures { index.new ≡ splice index.old at (numbers_bytes (numbers_left left.entry)) }
{
    let mut to = at;
    for k in left {
        lay_number(index, to, k);
        to += 2;
    }
}

// The old index without the number k, laid into 256 zeros: the numbers behind it move down by one place. No `for` here and below: what the iterator has left is
// handed on.
pub fn index_without(index: &mut [u8; 256], old: &[u8], k: usize)
    requires { index.old ≡ replicate 256 0 }
    ensures { index.new ≡ index_of (without k (numbers old.now)) }
{
    let mut at = 0;
    let mut left = numbers_of(old);
    while let Some(j) = left.next() {
        if usize::from(j) == k {
            break;
        }
        lay_number(index, at, j);
        at += 2;
    }
    copy_numbers(index, at, left);
}

// The old index with the number k, laid into 256 zeros: before the first file whose name comes after, the names being those of the image.
pub fn index_with(index: &mut [u8; 256], image: &[u8], old: &[u8], name: &[u8], k: u16)
    requires { index.old ≡ replicate 256 0 }
    ensures { index.new ≡ index_of (placed image.now name.now k (numbers old.now)) }
{
    let mut at = 0;
    let mut left = numbers_of(old);
    while let Some(j) = left.next() {
        if precedes(name, descriptor_of(image, j).name()) {
            lay_number(index, at, k);
            lay_number(index, at + 2, j);
            copy_numbers(index, at + 4, left);
            return;
        }
        lay_number(index, at, j);
        at += 2;
    }
    lay_number(index, at, k);
}

// The number k goes to its place by name among those in the first places, which are in order: those that come after it move up by one place. False where one
// of them has its name; then the index is of no more use.
fn settle(index: &mut [u8; 256], image: &[u8], places: usize, k: u16) -> bool
    requires { (places < 128) × (length (name_in image.now k) ≡ 10) }
    ensures { (front : List ℕ) → InFront image.now index.old (2 * places) front → (result ≡ not (named_in image.now (name_in image.now k) front)) × (result ≡ true → index.new ≡ numbers_bytes (placed image.now (name_in image.now k) k front) ++ drop (2 * places + 2) index.old) }
{
    let name = descriptor_of(image, k).name();
    for place in (0..places).rev() {
        let at = 2 * place;
        let behind = at + 2;
        let j = word(index, at);
        let other = descriptor_of(image, j).name();
        if !precedes(name, other) {
            if same(name, other) {
                return false;
            }
            lay_number(index, behind, k);
            return true;
        }
        lay_number(index, behind, j);
    }
    lay_number(index, 0, k);
    true
}

// The numbers of an index in the order of the names that they lead to, where they stand; false where two have one name, and then the index is of no more use.
pub fn order_numbers(index: &mut [u8; 256], image: &[u8]) -> bool
    requires { (length image.now ≡ 256 * sector_count image.now) × IsIndex (sector_count image.now) index.old }
    ensures value { result ≡ distinct_rule image.now [] (numbers index.old) }
    ensures index_after { result ≡ true → index.new ≡ index_of (ordered image.now (numbers index.old)) }
{
    // The index is written while it is read, so its numbers are read by their places.
    for place in 0..128 {
        let k = word(index, 2 * place);
        if k == 0 {
            break;
        }
        if !settle(index, image, place, k) {
            return false;
        }
    }
    true
}

// A new file's last write: the index in sector i with the number k in its place, its files and their names being those of the image as it stands.
pub fn enter(image: &mut [u8], i: u16, name: &[u8], k: u16)
    ensures { image.new ≡ written image.old (write i (index_of (placed image.old name.now k (files_in image.old i))) ∷ []) }
{
    let mut index = [0u8; 256];
    index_with(&mut index, image, sector_of(image, i), name, k);
    write_sector(image, i, &index);
}
