// Readings that are total: past the end stand zeros, and a part is as long as what is there.
ghost use Rattle.std.specs.Prelude.{◌≡◌, ◌+◌, ◌*◌, ◌≤◌, length, drop};
ghost use Rattle.rules.specs.Bytes.{byte_at, word_at, part, all_are, same};
ghost use Rattle.rules.specs.Sectors.{sector_of};

// The byte at i.
pub fn byte(bytes: &[u8], i: usize) -> u8
    ensures { result ≡ byte_at bytes.now i }
{
    if i < bytes.len() {
        return bytes[i];
    }
    0
}

// The two-byte number at i, high byte first.
pub fn word(bytes: &[u8], i: usize) -> u16
    ensures { result ≡ word_at bytes.now i }
{
    if bytes.len() <= i {
        return 0;
    }
    u16::from_be_bytes([byte(bytes, i), byte(bytes, i + 1)])
}

// `count` bytes from byte `from` on.
pub fn part(bytes: &[u8], from: usize, count: usize) -> &[u8]
    ensures { result.now ≡ part bytes.now from count }
{
    if from <= bytes.len() {
        if count <= bytes.len() - from {
            let end = from + count;
            return &bytes[from..end];
        }
        return &bytes[from..];
    }
    &bytes[0..0]
}

pub fn sector_of(image: &[u8], k: u16) -> &[u8]
    ensures { result.now ≡ sector_of image.now k }
{
    part(image, 256 * usize::from(k), 256)
}

// The same of a sector that is known to lie in the image: nothing is tested, and the compiler knows that it has 256 bytes.
pub fn sector_in(image: &[u8], k: usize) -> &[u8]
    requires { 256 * k + 256 ≤ length image.now }
    ensures { result.now ≡ sector_of image.now k }
{
    let at = 256 * k;
    let end = at + 256;
    &image[at..end]
}

// Whether all bytes from `from` on are `value`. There is no early way out, so that the compiler takes many bytes a step.
pub fn all_are(value: u8, bytes: &[u8], from: usize) -> bool
    ensures { result ≡ all_are value (drop from bytes.now) }
{
    let mut differing = 0;
    for byte in part(bytes, from, bytes.len()) {
        differing |= *byte ^ value;
    }
    differing == 0
}

// Whether two runs of bytes are equal.
pub fn same(first: &[u8], second: &[u8]) -> bool
    ensures { result ≡ same first.now second.now }
{
    first == second
}
