// Writing into a lent buffer: a copy, and bytes laid over it from a place on, as many as there is room for.
ghost use Rattle.std.specs.Prelude.{◌≡◌, ◌*◌, length, replicate};
ghost use Rattle.rules.specs.Bytes.{splice};

// A copy byte by byte: the slices' `copy_from_slice` would have a host provide `memmove` too.
pub fn copy(target: &mut [u8], source: &[u8])
    requires { length target.old ≡ length source.now }
    ensures { target.new ≡ source.now }
{
    for (i, byte) in source.iter().enumerate() {
        target[i] = *byte;
    }
}

// As many of the bytes as there is room for from `at` on.
pub fn lay(buffer: &mut [u8], at: usize, bytes: &[u8])
    ensures { buffer.new ≡ splice buffer.old at bytes.now }
{
    if at >= buffer.len() {
        return;
    }
    let room = buffer.len() - at;
    if bytes.len() <= room {
        let end = at + bytes.len();
        copy(&mut buffer[at..end], bytes);
        return;
    }
    copy(&mut buffer[at..], &bytes[0..room]);
}

// `many` bytes of that value from `at` on, as far as there is room.
pub fn lay_fill(buffer: &mut [u8], at: usize, many: usize, value: u8)
    ensures { buffer.new ≡ splice buffer.old at (replicate many value) }
{
    if at >= buffer.len() {
        return;
    }
    let end = at + usize::min(many, buffer.len() - at);
    buffer[at..end].fill(value);
}

// A whole sector of the image.
pub fn write_sector(image: &mut [u8], k: u16, sector: &[u8])
    ensures { image.new ≡ splice image.old (256 * k) sector.now }
{
    lay(image, 256 * usize::from(k), sector);
}
