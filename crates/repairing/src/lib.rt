// Repair, after a stop between two writes of a call: every index ordered by name, then the map made anew. It takes any image, answers that it is done or why it refuses, and leaves
// the image with the writes of the rules' definition laid over it, and their order in a list that is lent for it; a refusal has none.
#![tactic(auto)]

ghost use Rattle.std.specs.Prelude.{◌≡◌, true, ◌&&◌, [], map, ◌*◌, ◌≤◌, ◌<◌, length};
ghost use Rattle.rules.specs.Bytes.{splice};
ghost use Rattle.rules.specs.Sectors.{sector_of, sector_count, written};
ghost use Rattle.rules.specs.Map.{map_of};
ghost use Rattle.rules.specs.Index.{range_rule, index_rule, index_of, IsIndex};
ghost use Rattle.rules.specs.Volume.{indexes, every, files_in, holders};
ghost use Rattle.rules.specs.Tests.{first_of};
ghost use Rattle.rules.specs.Outcome.{listed, AnswerSays, Meets};
ghost use Rattle.rules.specs.Calls.Repair.{distinct_rule, each_rule, repair_tests, ordered, ordered_index, repair_of, Mendable};
ghost use Rattle.rules.specs.Refusal.{answered, judged};
ghost use Rattle.judge.specs.Claim.{Below};

use index::order_numbers;
use judge::directories::{entries_rule, indexes_rule};
use judge::files::descriptor_rule;
use judge::holders::claim_holders;
use judge::system::label_rule;
use map::laid::lay_map;
use rules::{Fault, Layout, Refusal};
use sector::buffer::{copy, write_sector};
use sector::bytes::sector_in;
use sector::directories::{directory_count, index_at, indexes_of};
use sector::numbers::numbers_of;
use sector::order::list;

// The descriptors that the index in sector i leads to keep their rules.
fn each_rule(layout: Layout, n: usize, image: &[u8], i: usize) -> bool
    requires { (i < n) × (length image.now ≡ 256 * n) × (range_rule n (files_in image.now i) ≡ true) }
    ensures { result ≡ each_rule layout n image.now (files_in image.now i) }
{
    for k in numbers_of(sector_in(image, i)) {
        if !descriptor_rule(layout, n, sector_in(image, usize::from(k))) {
            return false;
        }
    }
    true
}

// The index in sector i with its numbers in name order; false where two have one name, and then what is made is of no use.
fn in_order(index: &mut [u8; 256], image: &[u8], i: usize) -> bool
    requires { (length image.now ≡ 256 * sector_count image.now) × (i < sector_count image.now) × IsIndex (sector_count image.now) (sector_of image.now i) }
    ensures value { result ≡ distinct_rule image.now [] (files_in image.now i) }
    ensures index_after { result ≡ true → index.new ≡ index_of (ordered image.now (files_in image.now i)) }
{
    copy(index, sector_in(image, i));
    order_numbers(index, image)
}

// Whether the files of the index in sector i have each a name of its own.
fn distinct_rule(image: &[u8], i: usize) -> bool
    requires { (length image.now ≡ 256 * sector_count image.now) × (i < sector_count image.now) × IsIndex (sector_count image.now) (sector_of image.now i) }
    ensures { result ≡ distinct_rule image.now [] (files_in image.now i) }
{
    let mut index = [0u8; 256];
    in_order(&mut index, image, i)
}

// Test 4 as repair has it, of every index that is there.
fn catalogues_rule(layout: Layout, n: usize, image: &[u8]) -> bool
    requires { (length image.now ≡ 256 * n) × Below n (indexes layout image.now) × (every (λ i. index_rule n (sector_of image.now i)) (indexes layout image.now) ≡ true) }
    ensures { result ≡ every (λ i. each_rule layout n image.now (files_in image.now i) && distinct_rule image.now [] (files_in image.now i)) (indexes layout image.now) }
{
    for i in indexes_of(layout, image) {
        let i = usize::from(i);
        if !each_rule(layout, n, image, i) {
            return false;
        }
        if !distinct_rule(image, i) {
            return false;
        }
    }
    true
}

// The first fault of an image as repair has it; where there is none the map, whatever it was, is that of the holders.
fn examine(layout: Layout, image: &[u8], map: &mut [u8; 200]) -> Result<(), Fault>
    ensures value { judged result ≡ first_of (repair_tests layout image.now) }
    ensures map_after { judged result ≡ 0 → map.new ≡ map_of (sector_count image.now) (holders layout image.now) }
{
    if image.len() % 256 != 0 {
        return Err(Fault::Length);
    }
    let n = image.len() / 256;
    if n < 3 {
        return Err(Fault::Length);
    }
    if n > 1600 {
        return Err(Fault::Length);
    }
    let sector0 = sector_in(image, 0);
    if !label_rule(n, sector0) {
        return Err(Fault::Label);
    }
    if !entries_rule(layout, n, sector0) {
        return Err(Fault::Index);
    }
    if !indexes_rule(layout, n, image) {
        return Err(Fault::Index);
    }
    if !catalogues_rule(layout, n, image) {
        return Err(Fault::Descriptor);
    }
    lay_map(map, n, 1);
    if claim_holders(layout, image, map) {
        return Err(Fault::Holders);
    }
    Ok(())
}

// The index in sector i written in name order.
fn order_index(image: &mut [u8], i: u16)
    requires { (length image.old ≡ 256 * sector_count image.old) × (i < sector_count image.old) × IsIndex (sector_count image.old) (sector_of image.old i) × (distinct_rule image.old [] (files_in image.old i) ≡ true) }
    ensures { image.new ≡ splice image.old (256 * i) (index_of (ordered image.old (files_in image.old i))) }
{
    let mut index = [0u8; 256];
    in_order(&mut index, image, usize::from(i));
    write_sector(image, i, &index);
}

// Every index, the root's first and then those of the entries in their order; and how many there are.
fn order_indexes(layout: Layout, image: &mut [u8], changes: &mut [u32; 133]) -> usize
    requires { Mendable layout image.old }
    ensures image_after { image.new ≡ written image.old (map (ordered_index image.old) (indexes layout image.old)) }
    ensures order { (changes.new ≡ splice changes.old 2 (indexes layout image.old)) × (result ≡ length (indexes layout image.old)) × (result ≤ 4) }
{
    let mut many = 0;
    // The image is written while it is read, so its indexes are read by their directories.
    for directory in 0..directory_count(layout) {
        let Some(i) = index_at(layout, image, directory) else {
            continue;
        };
        order_index(image, i);
        changes[2 + many] = u32::from(i);
        many += 1;
    }
    many
}

pub fn repair(layout: Layout, image: &mut [u8], changes: &mut [u32; 133]) -> Result<(), Refusal>
    ensures meets { Meets AnswerSays (repair_of layout image.old) (answered result) image.old image.new }
    ensures order { changes.new ≡ listed (repair_of layout image.old) changes.old }
{
    let mut map = [0u8; 200];
    examine(layout, image, &mut map)?;
    let many = order_indexes(layout, image, changes);
    image[56..256].copy_from_slice(&map);
    let last = [0u32];
    list(changes, many, &last);
    Ok(())
}
