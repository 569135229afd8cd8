// The free count: the zero bits of the map.
ghost use Rattle.std.specs.Prelude.{◌≡◌, ◌≤◌};
ghost use Rattle.rules.specs.Map.{free_count};

use sector::bytes::part;

// The bits of the map in sector 0 less those that are one. The loop has no early way out, so that the compiler takes many bytes a step.
pub fn free_count_of(sector0: &[u8]) -> usize
    ensures { (result ≡ free_count sector0.now) × (result ≤ 1600) }
{
    let mut taken = 0;
    for byte in part(sector0, 56, 200) {
        taken += byte.count_ones();
    }
    1600 - taken as usize
}
