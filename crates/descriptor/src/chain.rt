// Blocks, and the iterators over those of a chain and over its places.
ghost use Rattle.std.specs.Prelude.{◌≡◌, ◌+◌, ◌-◌, ◌/◌, ◌%◌, ◌≤◌, ◌<◌, IfSome, eqb, slice_get};
ghost use Rattle.std.specs.Iterator.{item_count};
ghost use Rattle.rules.specs.Chain.{blocks, block_of, block_bytes, ends_chain, places};
ghost use Rattle.rules.specs.declared.Block.{Block};
ghost use Rattle.descriptor.specs.Walk.{blocks_left, NextBlock};
ghost use Rattle.descriptor.specs.Ahead.{places_left, Steady, NextPlace, past};

use rules::Block;

// The three bytes of a block as one number, the first byte lowest: it is zero where they end the chain, and start and last offset are twelve bits of it each.
fn fields_of(a: u8, b: u8, c: u8) -> usize
    ensures { (eqb result 0 ≡ ends_chain a b c) × (◌≡◌ {A = Block} (record { start = result % 4096; last = result / 4096 }) (block_of a b c)) × (result < 16777216) }
{
    usize::from(a) + 256 * usize::from(b) + 65536 * usize::from(c)
}

// The three bytes of a block.
pub fn block_bytes(start: usize, last: usize) -> [u8; 3]
    requires { (start < 4096) × (last < 4096) }
    ensures { result ≡ block_bytes (record { start = start; last = last }) }
{
    let low = (start % 256) as u8;
    let middle = (start / 256 + 16 * (last % 16)) as u8;
    let high = (last / 16) as u8;
    [low, middle, high]
}

// The blocks of a chain that are still to come: those of its bytes that are left. Three zero bytes end them, and so do fewer than three.
#[derive(Clone, Copy, Debug)]
pub struct Blocks<'a> {
    pub chain: &'a [u8],
}

pub fn blocks_of(chain: &[u8]) -> Blocks<'_>
    ensures { blocks_left result ≡ blocks chain.now }
{
    Blocks { chain }
}

impl<'a> Iterator for Blocks<'a> {
    type Item = Block;

    ghost next_gives = { NextBlock };

    ghost remaining = { item_count blocks_left };

    fn next(&mut self) -> Option<Block> {
        let Some((block, left)) = self.chain.split_first_chunk::<3>() else {
            return None;
        };
        let fields = fields_of(block[0], block[1], block[2]);
        if fields == 0 {
            return None;
        }
        self.chain = left;
        Some(Block {
            start: fields % 4096,
            last: fields / 4096,
        })
    }
}

// The places of a chain that are still to come: `left` sectors of the present block, from `place` on, then those of the other blocks, the first of which
// covers the file from its sector `next` on.
#[derive(Clone, Copy, Debug)]
pub struct Places<'a> {
    pub blocks: Blocks<'a>,
    pub next: usize,
    pub place: usize,
    pub left: usize,
}

pub fn places_of(chain: &[u8]) -> Places<'_>
    ensures all { places_left result ≡ places chain.now }
    ensures steady { Steady result }
{
    Places {
        blocks: blocks_of(chain),
        next: 0,
        place: 0,
        left: 0,
    }
}

impl<'a> Iterator for Places<'a> {
    type Item = u16;

    ghost can_next = { Steady };

    ghost next_gives = { NextPlace };

    ghost remaining = { item_count places_left };

    // One sector further, in constant time.
    fn next(&mut self) -> Option<u16> {
        if self.left > 0 {
            let place = self.place;
            self.place = place + 1;
            self.left -= 1;
            return Some(place as u16);
        }
        let Some(block) = self.blocks.next() else {
            return None;
        };
        self.place = block.start + 1;
        self.left = block.last.saturating_sub(self.next);
        self.next = block.last + 1;
        Some(block.start as u16)
    }
}

impl<'a> Places<'a> {
    // `many` sectors further in the present block.
    pub fn pass(&mut self, many: usize)
        requires { (many ≤ self.old.left) × (self.old.place + self.old.left < 8192) }
        ensures { self.new ≡ past self.old many }
    {
        self.place += many;
        self.left -= many;
    }
}

// The place of file sector `offset`, where the file has one: block by block.
pub fn place_at(chain: &[u8], offset: usize) -> Option<u16>
    ensures value { result ≡ slice_get (places chain.now) offset }
    ensures small { IfSome result (λ place. place < 8192) }
{
    let mut next = 0;
    let mut left = offset;
    for block in blocks_of(chain) {
        let more = block.last.saturating_sub(next);
        if left <= more {
            return Some((block.start + left) as u16);
        }
        left -= more + 1;
        next = block.last + 1;
    }
    None
}
