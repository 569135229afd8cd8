// Where a descriptor and data go.
ghost use Rattle.std.specs.Prelude.{◌≡◌, cond, List, ℕ, ◌-◌, ◌≤◌, ltb};
ghost use Rattle.rules.specs.Choice.{lowest_free, descriptor_choice, data_choice};
ghost use Rattle.map.specs.Search.{first, Searched};

use sector::bytes::byte;

// The lowest free sector from `from` on, or `end` where all before it are taken. A full byte of the map is passed at once, so the step
// is one or eight and no range has it.
fn lowest_free(sector0: &[u8], from: usize, end: usize) -> usize
    requires { (from ≤ end) × (end ≤ 1600) }
    ensures { (result ≡ lowest_free sector0.now (end - from) from) × (result ≤ end) }
{
    let mut k = from;
    while k < end {
        let value = byte(sector0, 56 + k / 8);
        if value == 255 {
            k = 8 * (k / 8) + 8;
        } else if (value >> (k % 8)) % 2 == 1 {
            k += 1;
        } else {
            return k;
        }
    }
    end
}

// The sector for a new descriptor: the lowest free one from 2 up.
pub fn descriptor_choice(sector0: &[u8]) -> u16
    ensures { (result ≡ descriptor_choice sector0.now) × (result ≤ 1600) }
{
    lowest_free(sector0, 2, 1600) as u16
}

// The search for data: the sector that it found, and how far it has come, so that the next one does not begin anew.
#[derive(Clone, Copy, Debug, PartialEq, Eq)]
pub struct Search {
    pub sector: usize,
    pub high: usize,
    pub low: usize,
}

impl Search {
    // Nothing is passed yet, whatever the map says.
    pub fn first() -> Search
        ensures { (result ≡ first) × ((sector0 : List ℕ) → Searched sector0 result) }
    {
        Search {
            sector: 0,
            high: 34,
            low: 2,
        }
    }

    // The lowest free sector from 34 up; when none is left there, the lowest free from 2 to 33.
    pub fn next(self, sector0: &[u8]) -> Search
        requires { Searched sector0.now self }
        ensures { (result.sector ≡ data_choice sector0.now) × Searched sector0.now result × (result.sector ≤ 1600) × (result.high ≡ lowest_free sector0.now 1566 34) × (result.low ≡ cond (ltb result.high 1600) self.low result.sector) }
    {
        let low = self.low;
        let high = lowest_free(sector0, self.high, 1600);
        if high < 1600 {
            return Search {
                sector: high,
                high,
                low,
            };
        }
        let lowest = lowest_free(sector0, low, 34);
        Search {
            sector: lowest,
            high,
            low: lowest,
        }
    }
}
