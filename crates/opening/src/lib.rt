// The one opener of all calls that name a file: what looking for the name in a directory gives, or the refusal: a fault of the image, the place where the name is
// wrong, or no such directory.
#![tactic(auto)]

ghost use Rattle.std.specs.Prelude.{◌≡◌};
ghost use Rattle.rules.specs.Opening.{find_in, in_directory, open_of};
ghost use Rattle.rules.specs.Refusal.{looked_for, opened};

use descriptor::fields::descriptor_of;
use descriptor::name::wrong_place;
use judge::judge;
use rules::{FileAt, Layout, Looked, Refusal};
use sector::bytes::{same, sector_of};
use sector::directories::index_at;
use sector::numbers::numbers_of;

// The first file of that name in the index in sector i.
pub fn find_in(image: &[u8], i: u16, name: &[u8]) -> Option<FileAt>
    ensures { looked_for i result ≡ find_in image.now i name.now }
{
    // `enumerate` would owe at each turn that the places stay below 2^64.
    let mut place = 0;
    for sector in numbers_of(sector_of(image, i)) {
        if same(name, descriptor_of(image, sector).name()) {
            return Some(FileAt { place, sector });
        }
        place += 1;
    }
    None
}

// The same in the index of a directory.
pub fn in_directory(
    layout: Layout,
    image: &[u8],
    directory: usize,
    name: &[u8],
) -> Result<Looked, Refusal>
    ensures { opened result ≡ in_directory layout image.now directory name.now }
{
    let Some(index) = index_at(layout, image, directory) else {
        return Err(Refusal::Absent);
    };
    let file = find_in(image, index, name);
    Ok(Looked { index, file })
}

// The same on a sound volume, under a name that keeps the rule.
pub fn find(layout: Layout, image: &[u8], directory: usize, name: &[u8]) -> Result<Looked, Refusal>
    ensures { opened result ≡ open_of layout image.now directory name.now }
{
    judge(layout, image)?;
    match wrong_place(name) {
        Some(place) => Err(Refusal::Misnamed(place)),
        None => in_directory(layout, image, directory, name),
    }
}
