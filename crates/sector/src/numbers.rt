// The numbers of an index, one after another, and one laid down.
ghost use Rattle.std.specs.Prelude.{◌≡◌};
ghost use Rattle.std.specs.Iterator.{YieldsFirst, item_count};
ghost use Rattle.rules.specs.Bytes.{word_bytes, splice};
ghost use Rattle.rules.specs.Index.{numbers};
ghost use Rattle.sector.specs.Numbers.{numbers_left};

use crate::buffer::lay;

// The numbers of an index that are still to come: those of its bytes that are left. They end at a zero, and where fewer than two bytes are left.
#[derive(Clone, Copy, Debug)]
pub struct Numbers<'a> {
    pub index: &'a [u8],
}

pub fn numbers_of(index: &[u8]) -> Numbers<'_>
    ensures { numbers_left result ≡ numbers index.now }
{
    Numbers { index }
}

impl<'a> Iterator for Numbers<'a> {
    type Item = u16;

    ghost next_gives = { YieldsFirst numbers_left };

    ghost remaining = { item_count numbers_left };

    fn next(&mut self) -> Option<u16> {
        let Some((number, left)) = self.index.split_first_chunk::<2>() else {
            return None;
        };
        let k = u16::from_be_bytes(*number);
        if k == 0 {
            return None;
        }
        self.index = left;
        Some(k)
    }
}

// A number in the two bytes from `at` on.
pub fn lay_number(buffer: &mut [u8], at: usize, number: u16)
    ensures { buffer.new ≡ splice buffer.old at (word_bytes number) }
{
    lay(buffer, at, &number.to_be_bytes());
}
