// The last block of a chain, and one sector more written into the chain's bytes: into that block where the sector follows it,
// otherwise into a block of its own.
#![tactic(auto)]

ghost use Rattle.std.specs.Prelude.{◌≡◌, ◌<◌};
ghost use Rattle.extension.specs.Tip.{is_next, tip_with, IsTip};
ghost use Rattle.extension.specs.Built.{Extendable, Extends};

use descriptor::chain::{block_bytes, blocks_of};
use sector::buffer::lay;

// How many blocks a chain has; where the last one starts, the first file sector that it covers, and the first file sector
// behind it. All are 0 for a chain without blocks.
#[derive(Clone, Copy, Debug, Default, PartialEq, Eq)]
pub struct Tip {
    pub used: usize,
    pub start: usize,
    pub first: usize,
    pub next: usize,
}

impl Tip {
    // The tip of any bytes.
    pub fn of(chain: &[u8]) -> Tip
        ensures { IsTip chain.now result }
    {
        let mut tip = Tip::default();
        for block in blocks_of(chain) {
            tip = Tip {
                used: tip.used + 1,
                start: block.start,
                first: tip.next,
                next: block.last + 1,
            };
        }
        tip
    }

    // Whether sector k follows the last sector of the last block.
    pub fn is_next(self, k: usize) -> bool
        ensures { result ≡ is_next self k }
    {
        if self.used == 0 || k < self.start {
            return false;
        }
        k - self.start == self.next.saturating_sub(self.first)
    }

    // The tip with sector k behind it. A chain has room for k where that one's `used` is at most 76.
    pub fn with(self, k: usize) -> Tip
        requires { (self.used < 65536) × (self.next < 65536) }
        ensures { result ≡ tip_with self k }
    {
        let next = self.next + 1;
        if self.is_next(k) {
            return Tip { next, ..self };
        }
        Tip {
            used: self.used + 1,
            start: k,
            first: self.next,
            next,
        }
    }
}

// Writes the one block that changes, and gives the new tip.
pub fn extend(chain: &mut [u8], tip: Tip, k: usize) -> Tip
    requires { Extendable chain.old tip k }
    ensures { Extends chain.old tip k chain.new result }
{
    let longer = tip.with(k);
    let number = longer.used - 1;
    let last = longer.next - 1;
    let block = block_bytes(longer.start, last);
    lay(chain, 3 * number, &block);
    longer
}
