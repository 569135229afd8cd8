// The files of all indexes, the root's first: the number of each, in the order of its index.
ghost use Rattle.std.specs.Prelude.{◌≡◌};
ghost use Rattle.std.specs.Iterator.{YieldsFirst, item_count};
ghost use Rattle.rules.specs.Volume.{indexes, files_of};
ghost use Rattle.packing.specs.Walk.{files_left};

use rules::Layout;
use sector::bytes::sector_of;
use sector::directories::{Indexes, indexes_of};
use sector::numbers::{Numbers, numbers_of};

// The files that are still to come: the rest of the present index, then those of the indexes behind it.
#[derive(Clone, Copy, Debug)]
pub struct Files<'a> {
    pub image: &'a [u8],
    pub numbers: Numbers<'a>,
    pub indexes: Indexes<'a>,
}

pub(crate) fn files_of(layout: Layout, image: &[u8]) -> Files<'_>
    ensures { files_left result ≡ files_of image.now (indexes layout image.now) }
{
    Files {
        image,
        numbers: numbers_of(&image[..0]),
        indexes: indexes_of(layout, image),
    }
}

impl<'a> Iterator for Files<'a> {
    type Item = u16;

    ghost next_gives = { YieldsFirst files_left };

    ghost remaining = { item_count files_left };

    fn next(&mut self) -> Option<u16> {
        loop {
            if let Some(k) = self.numbers.next() {
                return Some(k);
            }
            let i = self.indexes.next()?;
            self.numbers = numbers_of(sector_of(self.image, i));
        }
    }
}
