// What a catalogue program does, by either rule: it reads the image of a disk on standard input and writes its listing, or, for
// an image that is refused, one line with its number.
//
// `put_text` makes the text, and is proved to give what document 01 says for any image. Of the rest
// only safety is proved, since no contract can say what is read or written. Where standard input
// cannot be read, nothing is written but the reason, on standard error.
#![tactic(auto)]

ghost use Rattle.std.specs.Prelude.{◌≡◌, ◌≤◌, length};
ghost use Rattle.rules.specs.Bytes.{part, splice};
ghost use Rattle.printing.specs.Output.{output};

use console::options::{ARGUMENT_ROOM, count_arguments, read_options, usage};
use console::reason::fail;
use input::read_or_tell;
use listing::{refused_line, show};
use rules::Layout;
use sector::bytes::part;

// The longest image that a program takes.
const IMAGE_MOST: usize = 65536;

// One byte more than that: an image that is too long fills the buffer, whatever comes after.
const IMAGE_ROOM: usize = 65537;

// Room for every listing: a line of at most 21 bytes and at most 127 of at most 35.
const TEXT_ROOM: usize = 4466;

// Puts what the program writes for an image at the front of the text, and gives its length. The
// length is tested here, since the library takes images that are longer than the program's.
#[tactic(auto, using(crate::proofs::Outputs::long_size, crate::proofs::Outputs::long_left, crate::proofs::Outputs::long_front))]
fn put_text(layout: Layout, image: &[u8], text: &mut [u8]) -> usize
    requires { 4466 ≤ length text.old }
    ensures result_after { part text.new 0 result ≡ output layout image.now }
    ensures value { (result ≡ length (output layout image.now)) × (text.new ≡ splice text.old 0 (output layout image.now)) }
{
    if image.len() > IMAGE_MOST {
        return refused_line(1, text);
    }
    show(layout, image, text).size
}

fn list_standard_input(
    rt: HostRuntime,
    layout: Layout,
    buffer: &mut [u8; IMAGE_ROOM],
    text: &mut [u8; TEXT_ROOM],
) {
    let Some(length) = read_or_tell(rt, &mut rt.stdin(), b"standard input", buffer) else {
        return;
    };
    let size = put_text(layout, part(buffer, 0, length), text);
    if let Err(error) = rt.stdout().write_all(part(text, 0, size)) {
        fail(rt, b"standard output", error);
    }
}

// Whether there is an image to list: no argument is one.
fn begins(rt: HostRuntime, argument: &mut [u8; ARGUMENT_ROOM], help: &[u8]) -> bool {
    let end = count_arguments(rt);
    let options = read_options(rt, end, argument);
    !usage(rt, options.help, end > 1, help)
}

// The whole of a program, with its usage. The buffers are lent from here, once.
pub fn print(rt: HostRuntime, layout: Layout, help: &[u8]) {
    let mut argument = [0u8; ARGUMENT_ROOM];
    if begins(rt, &mut argument, help) {
        let mut buffer = [0u8; IMAGE_ROOM];
        let mut text = [0u8; TEXT_ROOM];
        list_standard_input(rt, layout, &mut buffer, &mut text);
    }
}
