// The directories: how many there may be, the sector of the index of each, and the indexes that are there, one after another.
ghost use Rattle.std.specs.Prelude.{◌≡◌, List, ℕ, ◌≤◌, length};
ghost use Rattle.std.specs.Iterator.{YieldsFirst, item_count};
ghost use Rattle.rules.specs.Volume.{directories, index_at, indexes};
ghost use Rattle.sector.specs.Directories.{some_index, indexes_left};

use crate::bytes::word;
use rules::Layout;

// How many directories a layout has, the root among them, whether they are there or not: their numbers are below.
pub fn directory_count(layout: Layout) -> usize
    ensures { ((image : List ℕ) → result ≡ length (directories layout image)) × (result ≤ 4) }
{
    if layout.directories {
        return 4;
    }
    1
}

// The sector of the index of a directory, where there is one of that number.
pub fn index_at(layout: Layout, image: &[u8], directory: usize) -> Option<u16>
    ensures { result ≡ some_index (index_at layout image.now directory) }
{
    if directory == 0 {
        return Some(1);
    }
    if !layout.directories || directory > 3 {
        return None;
    }
    let index = word(image, 18 + 12 * directory);
    if index == 0 {
        return None;
    }
    Some(index)
}

// The indexes that are there, the root's first, from the directory of a number on.
#[derive(Clone, Copy, Debug)]
pub struct Indexes<'a> {
    pub layout: Layout,
    pub image: &'a [u8],
    pub directory: usize,
}

pub fn indexes_of(layout: Layout, image: &[u8]) -> Indexes<'_>
    ensures { indexes_left result ≡ indexes layout image.now }
{
    Indexes {
        layout,
        image,
        directory: 0,
    }
}

impl<'a> Iterator for Indexes<'a> {
    type Item = u16;

    ghost next_gives = { YieldsFirst indexes_left };

    ghost remaining = { item_count indexes_left };

    fn next(&mut self) -> Option<u16> {
        while self.directory < directory_count(self.layout) {
            let directory = self.directory;
            self.directory += 1;
            if let Some(index) = index_at(self.layout, self.image, directory) {
                return Some(index);
            }
        }
        None
    }
}
