// Finds duplicate disks: one line for each image that the command line names, with its number, the place among the images, from 1,
// of the first one with equal packed bytes, and the image, one space between; with --sums the sum of its packed bytes stands in the
// place's stead. Then, on standard error, how many images there were of each number.
//
// The number is `packing::pack`'s: 0 for a sound image, 1 to 6 for its first fault; a `-` stands in the place of an unsound image,
// and `- -` for number and place where it cannot be read, with the reason on standard error. Two sound images have equal packed
// bytes exactly if their label areas and catalogues are equal. `pack_received` packs what was read and `put_line` makes the line, and
// both are proved to give what `specs/` says; the rest reads the images and writes the lines, and of that only safety is proved.
//
// An image is compared, byte by byte, with those earlier ones that have its sum, which are found in a table. So each image is packed
// once, and once more for each later one of equal sum; the sum is a hint and never the answer. An image past the end of the table is
// compared with all others that are past it.
#![tactic(auto)]

ghost use Rattle.std.specs.Prelude.{◌≡◌, ◌+◌, ◌<◌, length};
ghost use Rattle.rules.specs.Bytes.{splice};
ghost use Rattle.line.specs.Laid.{Laid};
ghost use Rattle.sums.specs.Lent.{AllBelow, SameArrays};
ghost use Rattle.console.specs.Mark.{digit_of};
ghost use Rattle.masters.specs.Packed.{mastered, master_of, packed_over};
ghost use Rattle.masters.specs.Line.{mark_of, hex_digit, sum_text, middle_of, line_of};

use console::images::finish;
use console::mark::{Mark, digit_of, mark_by};
use console::name::one_line;
use console::options::{ARGUMENT_ROOM, count_arguments, read_argument, read_options, usage};
use console::reason::fail;
use console::tally::Tally;
use input::{IMAGE_ROOM, read_file};
use line::{put, put_number};
use packing::pack;
use rules::{Fault, Layout, Refusal};
use sector::bytes::{part, same};
use std::io;
use sums::sum::sum_of;
use sums::table::Table;

const USAGE: &[u8] = b"usage: masters [--sums] [--marks] [--directories] [--] IMAGE...
Finds duplicate disks: for each image a line with its number, the place among the images, from 1, of
the first one that packs to the same bytes, and the image; - in the place of one that is no sound
volume, - - for one that cannot be read.
How many there were of each number is the last line on standard error.
  --sums         in the place's stead the sum of the packed bytes, in 16 hexadecimal digits: images
                 with different sums are different disks, and those with equal ones are equal but
                 for chance
  --marks        by the rule with marks: status bit 10 hex, changed since backup, is allowed
  --directories  by the second edition: sector 0 has entries of directories, which are packed too
  -h, --help     this text
";

// The longest image that can be sound.
const PACKED_ROOM: usize = 409600;

// The table's places, one more than it has images: more than are named on most command lines.
const PLACES: usize = 131072;

// How many bytes the packed form of an image has, or why it has none; nothing of one that was not read.
type Master = Option<Result<usize, Refusal>>;

// What stands in the middle of a line.
#[derive(Clone, Copy)]
enum Middle {
    Nothing,
    Place(usize),
    Sum(u64),
}

// Packs what was read. What is longer than the packed form can be is no volume.
fn pack_received(
    layout: Layout,
    received: Option<usize>,
    source: &[u8],
    packed: &mut [u8],
) -> Master
    ensures value { mastered result ≡ master_of layout received source.now packed.old }
    ensures packed_after { packed.new ≡ packed_over layout received source.now packed.old }
{
    let length = received?;
    if length > packed.len() {
        return Some(Err(Refusal::Unsound(Fault::Length)));
    }
    match pack(layout, part(source, 0, length), &mut packed[0..length]) {
        Ok(()) => Some(Ok(length)),
        Err(refusal) => Some(Err(refusal)),
    }
}

// What a line begins with. Packing into as many bytes is refused for a fault of the image alone.
#[tactic(auto, unfolding(console::specs::Mark::digit_of, console::specs::Mark::answer_digit, console::specs::Mark::number_digit, crate::specs::Line::mark_of))]
fn mark_of(master: Master) -> Mark
    ensures { digit_of result ≡ mark_of (mastered master) }
{
    let answer = master?;
    mark_by(answer)
}

// The hexadecimal digit of a sum that counts units of so many.
fn hex_digit(sum: u64, unit: u64) -> u8
    requires { 0 < unit }
    ensures { result ≡ hex_digit sum unit }
{
    let value = (sum / unit % 16) as u8;
    if value < 10 {
        return 48 + value;
    }
    87 + value
}

// A sum in sixteen hexadecimal digits, then a space.
fn put_sum(text: &mut [u8], at: usize, sum: u64) -> usize
    requires { at + 21 < 18446744073709551616 }
    ensures { Laid 17 text.old text.new at result (sum_text sum) }
{
    let figures = [
        hex_digit(sum, 0x1000000000000000),
        hex_digit(sum, 0x100000000000000),
        hex_digit(sum, 0x10000000000000),
        hex_digit(sum, 0x1000000000000),
        hex_digit(sum, 0x100000000000),
        hex_digit(sum, 0x10000000000),
        hex_digit(sum, 0x1000000000),
        hex_digit(sum, 0x100000000),
        hex_digit(sum, 0x10000000),
        hex_digit(sum, 0x1000000),
        hex_digit(sum, 0x100000),
        hex_digit(sum, 0x10000),
        hex_digit(sum, 0x1000),
        hex_digit(sum, 0x100),
        hex_digit(sum, 0x10),
        hex_digit(sum, 0x1),
        b' ',
    ];
    put(text, at, &figures)
}

fn put_middle(text: &mut [u8], at: usize, middle: Middle) -> usize
    requires { at + 21 < 18446744073709551616 }
    ensures { Laid 21 text.old text.new at result (middle_of middle) }
{
    match middle {
        Middle::Nothing => put(text, at, b"- "),
        Middle::Place(place) => put_number(text, at, place, b' '),
        Middle::Sum(sum) => put_sum(text, at, sum),
    }
}

// As much of the line as there is room for; its length is given in any case.
fn put_line(mark: Mark, middle: Middle, path: &[u8], buffer: &mut [u8]) -> usize
    ensures { (result ≡ length (line_of (digit_of mark) middle path.now)) × (buffer.new ≡ splice buffer.old 0 (line_of (digit_of mark) middle path.now)) }
{
    let front = [digit_of(mark), b' '];
    let next = put(buffer, 0, &front);
    let told = put_middle(buffer, next, middle);
    let named = put(buffer, told, path);
    put(buffer, named, b"\n")
}

// How images are packed, how many options stand in front of them, and the buffers that a path and an image are read into.
#[derive(Drop)]
struct Packer<'a> {
    rt: HostRuntime,
    layout: Layout,
    skipped: usize,
    argument: &'a mut [u8; ARGUMENT_ROOM],
    source: &'a mut [u8; IMAGE_ROOM],
}

impl Packer<'_> {
    // Packs the image at a place. There are `skipped` options in front of the images, so the sum is an argument's position.
    fn pack_at(&mut self, place: usize, packed: &mut [u8; PACKED_ROOM]) -> Master {
        let argument = &mut *self.argument;
        match read_argument(self.rt, self.skipped.wrapping_add(place), argument) {
            Ok(length) => {
                let source = &mut *self.source;
                let received = read_file(self.rt, &mut argument[..length], source);
                pack_received(self.layout, received, source, packed)
            }
            Err(error) => {
                fail(self.rt, b"argument", error);
                None
            }
        }
    }

    // The line is put together where the image was, and written at once, so that the lines of several processes on one output do not mix.
    fn write_line(&mut self, mark: Mark, middle: Middle, length: usize) -> io::Result<()> {
        let rt = self.rt;
        let source = &mut *self.source;
        let path = part(self.argument, 0, length);
        let size = put_line(mark, middle, path, source);
        rt.stdout().write_all(part(source, 0, size))
    }

    // The line of the image at a place, or of none where its argument cannot be read: why was told when its image was to be packed.
    fn write_at(&mut self, place: usize, mark: Mark, middle: Middle) -> io::Result<()> {
        let argument = &mut *self.argument;
        match read_argument(self.rt, self.skipped.wrapping_add(place), argument) {
            Ok(length) => {
                one_line(&mut argument[..length]);
                self.write_line(mark, middle, length)
            }
            Err(_) => self.write_line(mark, middle, 0),
        }
    }
}

// What finds the images of a packed form, with the buffer that another image's form is packed into.
#[derive(Drop)]
struct Finder<'a> {
    packer: Packer<'a>,
    other: &'a mut [u8; PACKED_ROOM],
}

impl Finder<'_> {
    // Whether the image at a place has this packed form.
    fn has_form(&mut self, place: usize, form: &[u8]) -> bool {
        match self.packer.pack_at(place, self.other) {
            Some(Ok(length)) => same(form, part(self.other, 0, length)),
            _ => false,
        }
    }

    // The place of the image in the table that has this sum and this packed form.
    fn entered_with(&mut self, sum: u64, form: &[u8], table: &Table<'_>) -> Option<usize> {
        for place in table.places_under(sum) {
            if self.has_form(place, form) {
                return Some(place);
            }
        }
        None
    }

    // The first place past the table's end, and before this one, whose image has this packed form, or this one.
    fn first_past(&mut self, own: usize, form: &[u8]) -> usize {
        for place in PLACES..own {
            if self.has_form(place, form) {
                return place;
            }
        }
        own
    }

    // The place of the first image that has this packed form, which the image at `own` has. One that is the first of its kind is
    // entered into the table, so that under a sum no two are equal.
    fn first_with(&mut self, own: usize, form: &[u8], table: &mut Table<'_>) -> usize
        requires { AllBelow table.old own }
        ensures below { AllBelow table.new (own + 1) }
        ensures same_arrays { SameArrays table.old table.new }
    {
        let sum = sum_of(form);
        if let Some(place) = self.entered_with(sum, form, table) {
            return place;
        }
        table.enter(own, sum);
        self.first_past(own, form)
    }

    // What stands in the middle of the line of a sound image.
    fn middle_of(
        &mut self,
        own: usize,
        only_sums: bool,
        form: &[u8],
        table: &mut Table<'_>,
    ) -> Middle
        requires { AllBelow table.old own }
        ensures below { AllBelow table.new (own + 1) }
        ensures same_arrays { SameArrays table.old table.new }
    {
        if only_sums {
            return Middle::Sum(sum_of(form));
        }
        Middle::Place(self.first_with(own, form, table))
    }

    // Packs an image, counts it and writes its line.
    fn find_one(
        &mut self,
        own: usize,
        only_sums: bool,
        packed: &mut [u8; PACKED_ROOM],
        table: &mut Table<'_>,
        tally: &mut Tally,
    ) -> io::Result<()>
        requires { AllBelow table.old own }
        ensures below { AllBelow table.new (own + 1) }
        ensures same_arrays { SameArrays table.old table.new }
    {
        let master = self.packer.pack_at(own, packed);
        let mark = mark_of(master);
        tally.count(digit_of(mark));
        let Some(Ok(length)) = master else {
            return self.packer.write_at(own, mark, Middle::Nothing);
        };
        let middle = self.middle_of(own, only_sums, part(packed, 0, length), table);
        self.packer.write_at(own, mark, middle)
    }

    // Its own loop and not `each_image`: that the table's places are before the image's is an invariant of it.
    fn find_all(
        &mut self,
        images: usize,
        only_sums: bool,
        packed: &mut [u8; PACKED_ROOM],
        table: &mut Table<'_>,
    ) -> io::Result<Tally>
        requires { AllBelow table.old 1 }
    {
        let mut tally = Tally::default();
        for own in 1..=images {
            self.find_one(own, only_sums, packed, table, &mut tally)?;
        }
        Ok(tally)
    }
}

// Argument 0 is the program's own name. A line that cannot be written ends the run: no later one would do better. The buffers are
// arrays, which keep their lengths by their types; of a slice of a large array the prover would count them.
fn run<'a>(
    rt: HostRuntime,
    argument: &'a mut [u8; ARGUMENT_ROOM],
    source: &'a mut [u8; IMAGE_ROOM],
    packed: &mut [u8; PACKED_ROOM],
    other: &'a mut [u8; PACKED_ROOM],
    table: &mut Table<'_>,
)
    requires { AllBelow table.old 1 }
{
    let end = count_arguments(rt);
    let options = read_options(rt, end, argument);
    let wrong = options.unknown || options.verbose;
    if usage(rt, options.help, wrong, USAGE) {
        return;
    }
    let first = options.first;
    if first == 0 {
        return;
    }
    let mut finder = Finder {
        packer: Packer {
            rt,
            layout: options.layout(),
            skipped: first - 1,
            argument,
            source,
        },
        other,
    };
    let images = end - first;
    let outcome = finder.find_all(images, options.sums, packed, table);
    finish(rt, images, outcome);
}

// The buffers are lent from here, once; every function below the loops works on plain slices.
fn main(rt: HostRuntime) {
    let mut argument = [0u8; ARGUMENT_ROOM];
    let mut source = [0u8; IMAGE_ROOM];
    let mut packed = [0u8; PACKED_ROOM];
    let mut other = [0u8; PACKED_ROOM];
    let mut last = [0u32; PLACES];
    let mut earlier = [0u32; PLACES];
    let mut sums = [0u64; PLACES];
    let mut table = Table {
        last: &mut last,
        earlier: &mut earlier,
        sums: &mut sums,
    };
    run(
        rt,
        &mut argument,
        &mut source,
        &mut packed,
        &mut other,
        &mut table,
    );
}
