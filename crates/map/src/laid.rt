// The map of a volume that is laid down anew, as formatting and packing do: the sectors below `used` are held, and the bits of those past the end are one.
ghost use Rattle.std.specs.Prelude.{◌≡◌, [], ◌*◌, ◌≤◌, length, set};
ghost use Rattle.rules.specs.Map.{taken, byte_of, map_of};
ghost use Rattle.rules.specs.Chain.{run};

// The byte from sector k on of a map where no sector is held: the bits of sectors past the end are one.
fn past_end(n: usize, k: usize) -> u8
    ensures { result ≡ byte_of (taken n []) k }
{
    if n <= k {
        return 0xFF;
    }
    if n - k >= 8 {
        return 0;
    }
    0xFFu8 << (n - k)
}

// The byte of the map from sector k on: the sectors below `used` are those that are not past it.
fn map_byte(n: usize, used: usize, k: usize) -> u8
    requires { used ≤ n }
    ensures { result ≡ byte_of (taken n (run 0 used)) k }
{
    0xFF - past_end(used, k) + past_end(n, k)
}

// Byte i of a map, where it has one.
fn lay_byte(map: &mut [u8], n: usize, used: usize, i: usize)
    requires { (used ≤ n) × (i ≤ 200) }
    ensures { map.new ≡ set map.old i (byte_of (taken n (run 0 used)) (8 * i)) }
{
    if i < map.len() {
        map[i] = map_byte(n, used, 8 * i);
    }
}

// Bytes 56 to 255 of sector 0, whatever they were: the sectors of the whole bytes below `used` are held, those of the whole bytes from there to the end
// are free, and the rest are past the end. Only the two bytes in which `used` and the end lie are computed.
pub fn lay_map(map: &mut [u8], n: usize, used: usize)
    requires { (length map.old ≡ 200) × (used ≤ n) × (n ≤ 1600) }
    ensures { map.new ≡ map_of n (run 0 used) }
{
    let held = used / 8;
    let end = n / 8;
    map.fill(0xFF);
    map[held..end].fill(0);
    lay_byte(map, n, used, held);
    lay_byte(map, n, used, end);
}
