// Judges images of disks: one line for each image that the command line names, or, where it names
// none, the number of the image on standard input; then, on standard error, how many images there
// were of each number.
//
// `input::mark_of` gives the mark of an image, whose digit its line begins with: 0 of a sound one or 1 to 6
// for its first fault. `put_line` makes the line, which is proved to be what `specs/` says. The rest reads the images
// and writes the lines, and of that only safety is proved, since no contract can say what is read or
// written. An image that cannot be read has `-` in the number's place and the reason on standard error,
// and the images after it are judged all the same.
#![tactic(auto)]

ghost use Rattle.std.specs.Prelude.{◌≡◌, ◌+◌, ◌<◌, ◌≤◌, length};
ghost use Rattle.rules.specs.Bytes.{splice};
ghost use Rattle.line.specs.Laid.{Laid};
ghost use Rattle.console.specs.Mark.{digit_of};
ghost use Rattle.belt.specs.Line.{reason_of, line_of, bare_line};

use console::ground::put_ground;
use console::images::{Program, each_image, finish};
use console::mark::{Mark, digit_of};
use console::options::{ARGUMENT_ROOM, count_arguments, read_options, usage};
use console::tally::Tally;
use input::{IMAGE_ROOM, mark_of, read_file, read_or_tell};
use line::put;
use rules::Layout;
use sector::bytes::part;
use std::io;

const USAGE: &[u8] = b"usage: belt [-v] [--marks] [--directories] [--] [IMAGE...]
Judges images of disks: for each a line with its number, 0 for a sound volume or 1 to 6 for its
first fault, and the image; - for one that cannot be read. With no image, that of standard input.
How many there were of each number is the last line on standard error.
  -v             with the ground in words
  --marks        by the rule with marks: status bit 10 hex, changed since backup, is allowed
  --directories  by the second edition: sector 0 has entries of directories
  -h, --help     this text
";

// The ground in words, where it is asked for.
fn put_reason(text: &mut [u8], at: usize, verbose: bool, mark: Mark) -> usize
    requires { at + 44 < 18446744073709551616 }
    ensures { Laid 44 text.old text.new at result (reason_of verbose (digit_of mark)) }
{
    if verbose {
        let next = put(text, at, b": ");
        return put_ground(text, next, digit_of(mark));
    }
    at
}

// As much of the line as there is room for; its length is given in any case.
fn put_line(verbose: bool, mark: Mark, path: &[u8], buffer: &mut [u8]) -> usize
    ensures { (result ≡ length (line_of verbose (digit_of mark) path.now)) × (buffer.new ≡ splice buffer.old 0 (line_of verbose (digit_of mark) path.now)) }
{
    let front = [digit_of(mark), b' '];
    let next = put(buffer, 0, &front);
    let named = put(buffer, next, path);
    let told = put_reason(buffer, named, verbose, mark);
    put(buffer, told, b"\n")
}

// The same for standard input.
fn put_bare_line(verbose: bool, mark: Mark, buffer: &mut [u8]) -> usize
    ensures { (result ≡ length (bare_line verbose (digit_of mark))) × (buffer.new ≡ splice buffer.old 0 (bare_line verbose (digit_of mark))) }
{
    let front = [digit_of(mark)];
    let next = put(buffer, 0, &front);
    let told = put_reason(buffer, next, verbose, mark);
    put(buffer, told, b"\n")
}

// How images are judged, and the buffer that each is read into.
#[derive(Drop)]
struct Belt<'a> {
    rt: HostRuntime,
    layout: Layout,
    verbose: bool,
    buffer: &'a mut [u8; IMAGE_ROOM],
}

impl Belt<'_> {
    // The line is put together where the image was, and written at once, so that the lines of several
    // processes on one output do not mix.
    fn write_line(&mut self, mark: Mark, path: &[u8]) -> io::Result<()> {
        let size = put_line(self.verbose, mark, path, self.buffer);
        self.rt.stdout().write_all(part(self.buffer, 0, size))
    }

    // Judges the image on standard input, and counts it.
    fn take_standard_input(&mut self) -> io::Result<Tally> {
        let received = read_or_tell(
            self.rt,
            &mut self.rt.stdin(),
            b"standard input",
            self.buffer,
        );
        let mark = mark_of(self.layout, received, self.buffer);
        let size = put_bare_line(self.verbose, mark, self.buffer);
        self.rt.stdout().write_all(part(self.buffer, 0, size))?;
        let mut tally = Tally::default();
        tally.count(digit_of(mark));
        Ok(tally)
    }
}

impl Program for Belt<'_> {
    fn take(&mut self, path: &mut [u8]) -> io::Result<Mark> {
        let received = read_file(self.rt, path, self.buffer);
        let mark = mark_of(self.layout, received, self.buffer);
        self.write_line(mark, path)?;
        Ok(mark)
    }

    fn take_unread(&mut self) -> io::Result<Mark> {
        self.write_line(None, b"")?;
        Ok(None)
    }
}

// Judges what the command line names, or what comes on standard input where it names nothing. Argument 0
// is the program's own name. The buffers are arrays, which keep their lengths by their types; of a slice
// of a large array the prover would count them.
fn run(rt: HostRuntime, argument: &mut [u8; ARGUMENT_ROOM], buffer: &mut [u8; IMAGE_ROOM]) {
    let end = count_arguments(rt);
    let options = read_options(rt, end, argument);
    if usage(rt, options.help, options.unknown || options.sums, USAGE) {
        return;
    }
    let mut belt = Belt {
        rt,
        layout: options.layout(),
        verbose: options.verbose,
        buffer,
    };
    if options.first == end {
        finish(rt, 1, belt.take_standard_input());
        return;
    }
    let outcome = each_image(rt, options.first..end, argument, &mut belt);
    finish(rt, end - options.first, outcome);
}

// The buffers are lent from here, once.
fn main(rt: HostRuntime) {
    let mut argument = [0u8; ARGUMENT_ROOM];
    let mut buffer = [0u8; IMAGE_ROOM];
    run(rt, &mut argument, &mut buffer);
}
