// Bits of the map made one and made zero, and a bit of any byte.
ghost use Rattle.std.specs.Prelude.{◌≡◌, ◌∷◌, ◌<◌};
ghost use Rattle.rules.specs.Bytes.{with_bit};
ghost use Rattle.rules.specs.Chain.{places};
ghost use Rattle.rules.specs.Map.{marked, marked_all};

use descriptor::chain::places_of;

// A byte with its bit j made `bit`.
pub fn with_bit(value: u8, j: usize, bit: u8) -> u8
    requires { (j < 8) × (bit < 2) }
    ensures { result ≡ with_bit value j bit }
{
    let was = (value >> j) % 2;
    value - (was << j) + (bit << j)
}

// The bit of sector k made `bit`. A sector that the map does not reach changes nothing.
fn mark_as(sector0: &mut [u8], k: usize, bit: u8)
    requires { bit < 2 }
    ensures { sector0.new ≡ marked bit sector0.old k }
{
    let i = 56 + k / 8;
    if i < sector0.len() {
        sector0[i] = with_bit(sector0[i], k % 8, bit);
    }
}

// The sector k is taken.
pub fn mark(sector0: &mut [u8], k: usize)
    ensures { sector0.new ≡ marked 1 sector0.old k }
{
    mark_as(sector0, k, 1);
}

// The sectors of a file are free: its descriptor's, k, and those of its chain.
pub fn clear_file(sector0: &mut [u8], k: usize, chain: &[u8])
    ensures { sector0.new ≡ marked_all 0 sector0.old (k ∷ places chain.now) }
{
    mark_as(sector0, k, 0);
    for place in places_of(chain) {
        mark_as(sector0, usize::from(place), 0);
    }
}
