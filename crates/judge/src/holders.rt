// The holders: test 5. Sector after sector is claimed on the marks; a place takes with it those behind it that share its byte.
ghost use Rattle.std.specs.Prelude.{◌≡◌, false, ◌+◌, ◌%◌, ◌≤◌, ◌<◌, length};
ghost use Rattle.rules.specs.Sectors.{sector_count};
ghost use Rattle.rules.specs.Map.{marked_all};
ghost use Rattle.rules.specs.Volume.{indexes, files_in, file_holders};
ghost use Rattle.judge.specs.Claim.{as_map, clashes, Below, claims};

use crate::marks::take;
use descriptor::chain::places_of;
use rules::Layout;
use sector::bytes::{part, sector_in};
use sector::directories::{directory_count, index_at};
use sector::numbers::numbers_of;

// How many of the `left` sectors behind sector k are taken with it: those that share its byte of the marks.
fn beside(k: usize, left: usize) -> usize
    ensures { (result ≤ left) × (k % 8 + result < 8) }
{
    let room = 7 - k % 8;
    if left < room {
        return left;
    }
    room
}

// Marks the sectors of each file of the index in sector i, the descriptor's and then its places, and answers whether one was taken already:
// it stops at the first sector claimed twice.
fn claim_files(image: &[u8], i: usize, marks: &mut [u8; 200]) -> bool
    requires { (i < sector_count image.now) × (sector_count image.now ≤ 1600) × Below (sector_count image.now) (file_holders image.now (files_in image.now i)) }
    ensures value { result ≡ clashes (as_map marks.old) (file_holders image.now (files_in image.now i)) }
    ensures marks_after { result ≡ false → as_map marks.new ≡ marked_all 1 (as_map marks.old) (file_holders image.now (files_in image.now i)) }
{
    let mut twice = false;
    'files: for k in numbers_of(sector_in(image, i)) {
        let k = usize::from(k);
        if !take(marks, k, 0) {
            twice = true;
            break 'files;
        }
        // No `for`: the places that are taken with one are passed on the iterator.
        let mut places = places_of(part(sector_in(image, k), 28, 228));
        while let Some(place) = places.next() {
            let more = beside(usize::from(place), places.left);
            if !take(marks, usize::from(place), more) {
                twice = true;
                break 'files;
            }
            places.pass(more);
        }
    }
    twice
}

// Marks every holder but sector 0: each index that is there, and what its files hold. Answers whether one was taken already.
pub fn claim_holders(layout: Layout, image: &[u8], marks: &mut [u8; 200]) -> bool
    requires { (sector_count image.now ≤ 1600) × Below (sector_count image.now) (claims image.now (indexes layout image.now)) }
    ensures value { result ≡ clashes (as_map marks.old) (claims image.now (indexes layout image.now)) }
    ensures marks_after { result ≡ false → as_map marks.new ≡ marked_all 1 (as_map marks.old) (claims image.now (indexes layout image.now)) }
{
    for directory in 0..directory_count(layout) {
        let Some(i) = index_at(layout, image, directory) else {
            continue;
        };
        let i = usize::from(i);
        if !take(marks, i, 0) {
            return true;
        }
        if claim_files(image, i, marks) {
            return true;
        }
    }
    false
}
