// The image that a reader gives, read until it ends, or that a file has, and its mark. Of what is read nothing can be said; that it was put at
// the start of the buffer, and how much of it, is proved, and that the mark is that of these bytes.
#![tactic(auto)]

ghost use Rattle.std.specs.Prelude.{◌≡◌, length, OnErr};
ghost use Rattle.console.specs.Name.{one_line};
ghost use Rattle.console.specs.Mark.{digit_of};
ghost use Rattle.input.specs.Filled.{Filled, received_of};
ghost use Rattle.input.specs.Mark.{mark_of};

use console::mark::Mark;
use console::name::{one_line, path_text};
use console::reason::fail;
use judge::judge;
use rules::Layout;
use sector::bytes::part;
use std::fs::File;
use std::io::Read;
use std::{fs, io};

// One byte more than the longest image that can be sound. An image that is too long fills the buffer and is refused for its length, whatever
// comes after the bytes that were read.
pub const IMAGE_ROOM: usize = 409601;

// Reads until the input ends or the buffer is full. `Read::read_exact` has an input that ends early as an error and `Read::read_to_end` has no
// bound, and the bytes before a failure are no image: of them nothing is said.
pub fn read_image<R: Read>(reader: &mut R, buffer: &mut [u8]) -> io::Result<usize>
    ensures filled { Filled (received_of result) buffer.new }
    ensures err { OnErr result (length buffer.new ≡ length buffer.old) }
{
    let mut filled = 0;
    while filled < buffer.len() {
        let more = reader.read(&mut buffer[filled..])?;
        if more == 0 {
            return Ok(filled);
        }
        filled += more;
    }
    Ok(filled)
}

// The same, with the reason on standard error where it fails, which begins with `name`: then nothing was read.
pub fn read_or_tell<R: Read>(
    rt: HostRuntime,
    reader: &mut R,
    name: &[u8],
    buffer: &mut [u8],
) -> Option<usize>
    ensures { Filled result buffer.new }
{
    match read_image(reader, buffer) {
        Ok(count) => Some(count),
        Err(error) => {
            fail(rt, name, error);
            None
        }
    }
}

// Opens a file for reading.
fn open_image(rt: HostRuntime, path: &[u8]) -> io::Result<File> {
    fs::open(&rt, path_text(path)?)
}

// The image in a file. Once that is open its path is only shown, so it becomes one line.
pub fn read_file(rt: HostRuntime, path: &mut [u8], buffer: &mut [u8]) -> Option<usize>
    ensures filled { Filled result buffer.new }
    ensures path_after { path.new ≡ one_line path.old }
{
    let opened = open_image(rt, path);
    one_line(path);
    match opened {
        Ok(mut file) => read_or_tell(rt, &mut file, path, buffer),
        Err(error) => {
            fail(rt, path, error);
            None
        }
    }
}

// The mark of what was put into the buffer.
#[tactic(auto, unfolding(crate::specs::Mark::mark_of, console::specs::Mark::digit_of))]
pub fn mark_of(layout: Layout, received: Option<usize>, buffer: &[u8]) -> Mark
    ensures { digit_of result ≡ mark_of layout received buffer.now }
{
    let length = received?;
    Some(judge(layout, part(buffer, 0, length)))
}
