// Writes the listing of each image that the command line names, one after the other, each behind a line
// that names the image; then, on standard error, how many images there were of each number.
//
// `put_listing` makes the text of an image and `put_page` what is written for it, and both are proved to
// give what document 01 and `specs/` say, for an image of any size: the bound of the catalogue program is
// not one of the library. The rest reads the images and writes the pages, and of that only safety is
// proved, since no contract can say what is read or written. For an image that cannot be read there is a
// line `-`, with the reason on standard error, and the images after it are listed all the same.
#![tactic(auto)]

ghost use Rattle.std.specs.Prelude.{◌≡◌, [], ◌∷◌, ◌+◌, ◌≤◌, length};
ghost use Rattle.rules.specs.Bytes.{part, splice};
ghost use Rattle.rules.specs.Verdict.{verdict};
ghost use Rattle.rules.specs.Calls.Listing.{listed};
ghost use Rattle.line.specs.Laid.{Laid};
ghost use Rattle.console.specs.Mark.{digit_of};
ghost use Rattle.listings.specs.Page.{text_of, parting_of, page_of};

use console::images::{Program, each_image, finish};
use console::mark::{Mark, mark_by};
use console::options::{ARGUMENT_ROOM, count_arguments, read_options, usage};
use input::{IMAGE_ROOM, read_file};
use line::put;
use listing::show;
use rules::Layout;
use sector::buffer::lay;
use sector::bytes::part;
use std::io;

// Room for every listing: a line of at most 21 bytes and at most 127 of at most 35.
const TEXT_ROOM: usize = 4466;

const USAGE: &[u8] = b"usage: listings [--marks] [--directories] [--] IMAGE...
Lists each image of a disk behind a line that names it: its name, size and free count, then a line a
file. REFUSED and its number for one that is no sound volume, - for one that cannot be read.
How many there were of each number is the last line on standard error.
  --marks        by the rule with marks: status bit 10 hex, changed since backup, is allowed, and
                 each file has a last field, M where the bit is set or else a hyphen
  --directories  by the second edition: sector 0 has entries of directories; the files are the root's
  -h, --help     this text
";

// What an image is counted as, and the length of its text.
#[derive(Clone, Copy)]
struct Listed {
    mark: Mark,
    size: usize,
}

// Each `put_` puts a text at the front of the lent one and gives its length.
fn put_listing(layout: Layout, image: &[u8], text: &mut [u8; TEXT_ROOM]) -> Listed
    ensures size_after { part text.new 0 result.size ≡ listed layout image.now }
    ensures size_value { (result.size ≡ length (listed layout image.now)) × (text.new ≡ splice text.old 0 (listed layout image.now)) }
    ensures mark_value { digit_of result.mark ≡ 48 + verdict layout image.now }
{
    let shown = show(layout, image, text);
    Listed {
        mark: mark_by(shown.verdict),
        size: shown.size,
    }
}

#[tactic(auto, unfolding(console::specs::Mark::digit_of))]
fn put_unread(text: &mut [u8]) -> Listed
    ensures size_value { (result.size ≡ 2) × (text.new ≡ splice text.old 0 (0x2D ∷ (10 ∷ []))) }
    ensures mark_value { digit_of result.mark ≡ 0x2D }
{
    lay(text, 0, b"-\n");
    Listed {
        mark: None,
        size: 2,
    }
}

#[tactic(auto, using(crate::proofs::Parting::none_laid, crate::proofs::Parting::none_long, crate::proofs::Parting::one_laid))]
fn put_parting(first: bool, page: &mut [u8]) -> usize
    ensures { Laid 1 page.old page.new 0 result (parting_of first) }
{
    if first {
        return 0;
    }
    put(page, 0, b"\n")
}

// As much of the page as there is room for; its length is given in any case.
fn put_page(first: bool, path: &[u8], text: &[u8], page: &mut [u8]) -> usize
    requires { length text.now ≤ 4466 }
    ensures { (result ≡ length (page_of first path.now text.now)) × (page.new ≡ splice page.old 0 (page_of first path.now text.now)) }
{
    let parted = put_parting(first, page);
    let begun = put(page, parted, b"==> ");
    let named = put(page, begun, path);
    let headed = put(page, named, b" <==\n");
    put(page, headed, text)
}

#[tactic(auto, unfolding(crate::specs::Page::text_of, line::specs::Letters::letters))]
fn put_received(
    layout: Layout,
    received: Option<usize>,
    buffer: &[u8],
    text: &mut [u8; TEXT_ROOM],
) -> Listed
    ensures { (result.size ≡ length (text_of layout received buffer.now)) × (text.new ≡ splice text.old 0 (text_of layout received buffer.now)) }
{
    match received {
        Some(length) => put_listing(layout, part(buffer, 0, length), text),
        None => put_unread(text),
    }
}

// How images are listed, whether the next page is the first, the buffer that each image is read into, and that of its text.
#[derive(Drop)]
struct Lister<'a> {
    rt: HostRuntime,
    layout: Layout,
    first: bool,
    buffer: &'a mut [u8; IMAGE_ROOM],
    text: &'a mut [u8; TEXT_ROOM],
}

impl Lister<'_> {
    // The text is that of so many bytes. The page is put together where the image was, and written at once, so that the
    // pages of several processes on one output do not mix; on a pipe this holds for 4,096 bytes.
    fn write_page(&mut self, path: &[u8], size: usize) -> io::Result<()> {
        let page = &mut *self.buffer;
        let end = put_page(self.first, path, part(self.text, 0, size), page);
        self.first = false;
        self.rt.stdout().write_all(part(page, 0, end))
    }
}

impl Program for Lister<'_> {
    fn take(&mut self, path: &mut [u8]) -> io::Result<Mark> {
        let received = read_file(self.rt, path, self.buffer);
        let listed = put_received(self.layout, received, self.buffer, self.text);
        self.write_page(path, listed.size)?;
        Ok(listed.mark)
    }

    fn take_unread(&mut self) -> io::Result<Mark> {
        let listed = put_unread(self.text);
        self.write_page(b"", listed.size)?;
        Ok(listed.mark)
    }
}

// Argument 0 is the program's own name. The buffers are arrays, which keep their lengths by their types; of
// a slice of a large array the prover would count them.
fn run(
    rt: HostRuntime,
    argument: &mut [u8; ARGUMENT_ROOM],
    buffer: &mut [u8; IMAGE_ROOM],
    text: &mut [u8; TEXT_ROOM],
) {
    let end = count_arguments(rt);
    let options = read_options(rt, end, argument);
    let wrong = options.unknown || options.verbose || options.sums;
    if usage(rt, options.help, wrong, USAGE) {
        return;
    }
    let mut lister = Lister {
        rt,
        layout: options.layout(),
        first: true,
        buffer,
        text,
    };
    let outcome = each_image(rt, options.first..end, argument, &mut lister);
    finish(rt, end - options.first, outcome);
}

// The buffers are lent from here, once.
fn main(rt: HostRuntime) {
    let mut argument = [0u8; ARGUMENT_ROOM];
    let mut buffer = [0u8; IMAGE_ROOM];
    let mut text = [0u8; TEXT_ROOM];
    run(rt, &mut argument, &mut buffer, &mut text);
}
