// Repairs images of disks in their files: one line for each image that the command line names, with
// the number it had, the image, and what became of it; then, on standard error, how many images there
// are of each number now.
//
// `mend_received` makes of what was read the mended image and says what became of it, `put_line` makes
// the line, `counted_as` says how the image counts, and all are proved to give what `specs/` says. The
// rest reads the images and writes them and the lines, and of that only safety is proved, since no
// contract can say what is read or written.
//
// A mended image is written to a new file beside the image's, which takes its place when it is whole.
// So the image's file is at any time what it was or the mended image. Where something fails, the reason
// goes to standard error, and the images after it are mended all the same.
#![tactic(auto)]

ghost use Rattle.std.specs.Prelude.{◌≡◌, ◌≤◌, length};
ghost use Rattle.rules.specs.Bytes.{splice};
ghost use Rattle.console.specs.Mark.{digit_of};
ghost use Rattle.input.specs.Filled.{Filled};
ghost use Rattle.input.specs.Mark.{mark_of};
ghost use Rattle.mend.specs.Mending.{fate_of, mended_over, SoundNow, counted_as};
ghost use Rattle.mend.specs.Line.{words_of, line_of, beside_of};

use console::images::{Program, each_image, finish};
use console::mark::{Mark, digit_of};
use console::name::path_text;
use console::options::{ARGUMENT_ROOM, count_arguments, read_options, usage};
use console::reason::fail;
use input::{IMAGE_ROOM, read_file};
use judge::judge;
use line::put;
use repairing::repair;
use rules::Layout;
use sector::bytes::part;
use std::fs::{File, OpenOptions};
use std::io::Write;
use std::{fs, io};

// One byte more than the longest path that the system takes.
const PATH_ROOM: usize = 4096;

const USAGE: &[u8] = b"usage: mend [--marks] [--directories] [--] IMAGE...
Repairs images of disks in their files, as after a stop between two writes: the files of each index
in the order of their names, and the map made anew. For each image a line with the number it had and
what became of it: sound, mended, not mended, not read or not written.
A mended image is written to a new file, IMAGE.mending, which takes the image's place when it is whole.
How many there are of each number now is the last line on standard error; an image that could not be
read or written counts as unread.
  --marks        by the rule with marks: status bit 10 hex, changed since backup, is allowed
  --directories  by the second edition: sector 0 has entries of directories. Without it a disk that
                 has them is number 6, and mended to one whose map frees what they hold
  -h, --help     this text
";

// What becomes of an image: it is sound, and left alone; it is mended, and its so many bytes are to be
// written; repair refuses it; it was not read; it was mended, and could not be written.
#[derive(Clone, Copy)]
enum Fate {
    Sound,
    Mended(usize),
    Refused,
    Unread,
    Unwritten,
}

// The mark of an image as it was, and what becomes of it.
#[derive(Clone, Copy)]
struct Mending {
    mark: Mark,
    fate: Fate,
}

// Mends what was read, where it stands.
#[tactic(auto, using(crate::proofs::MendingLaws::sound_by_mark, crate::proofs::MendingLaws::stays_by_mark, crate::proofs::MendingLaws::judged_sound), unfolding(crate::specs::Mending::SoundNow, crate::specs::Mending::fate_of, crate::specs::Mending::mended_over, input::specs::Mark::mark_of, console::specs::Mark::digit_of))]
fn mend_received(layout: Layout, received: Option<usize>, buffer: &mut [u8]) -> Mending
    requires { Filled received buffer.old }
    ensures mark_value { digit_of result.mark ≡ mark_of layout received buffer.old }
    ensures fate_value { result.fate ≡ fate_of layout received buffer.old }
    ensures buffer_after { buffer.new ≡ mended_over layout received buffer.old }
    ensures sound_now { SoundNow layout result.fate buffer.new }
{
    let Some(length) = received else {
        return Mending {
            mark: None,
            fate: Fate::Unread,
        };
    };
    let judged = judge(layout, part(buffer, 0, length));
    let mark = Some(judged);
    if judged.is_ok() {
        return Mending {
            mark,
            fate: Fate::Sound,
        };
    }
    let mut changes = [0u32; 133];
    match repair(layout, &mut buffer[..length], &mut changes) {
        Ok(()) => Mending {
            mark,
            fate: Fate::Mended(length),
        },
        Err(_) => Mending {
            mark,
            fate: Fate::Refused,
        },
    }
}

#[tactic(auto, unfolding(crate::specs::Line::words_of, line::specs::Letters::letters))]
fn words_of(fate: Fate) -> &'static [u8]
    ensures { (result.now ≡ words_of fate) × (length result.now ≤ 11) }
{
    match fate {
        Fate::Sound => b"sound",
        Fate::Mended(_) => b"mended",
        Fate::Refused => b"not mended",
        Fate::Unread => b"not read",
        Fate::Unwritten => b"not written",
    }
}

impl Mending {
    // The mark that an image counts by: a mended one is sound now, and one that repair refused has its number.
    #[tactic(auto, unfolding(crate::specs::Mending::counted_as, console::specs::Mark::digit_of))]
    fn counted_as(self) -> Mark
        ensures { digit_of result ≡ counted_as (digit_of self.mark) self.fate }
    {
        match self.fate {
            Fate::Sound | Fate::Mended(_) => Some(Ok(())),
            Fate::Refused => self.mark,
            Fate::Unread | Fate::Unwritten => None,
        }
    }

    // As much of the line as there is room for; its length is given in any case.
    fn put_line(self, path: &[u8], buffer: &mut [u8]) -> usize
        ensures { (result ≡ length (line_of (digit_of self.mark) self.fate path.now)) × (buffer.new ≡ splice buffer.old 0 (line_of (digit_of self.mark) self.fate path.now)) }
    {
        let front = [digit_of(self.mark), b' '];
        let next = put(buffer, 0, &front);
        let named = put(buffer, next, path);
        let parted = put(buffer, named, b": ");
        let told = put(buffer, parted, words_of(self.fate));
        put(buffer, told, b"\n")
    }
}

// The path of the file beside an image, as much of it as there is room for; its length is given in any case.
fn put_beside(path: &[u8], text: &mut [u8]) -> usize
    ensures { (result ≡ length (beside_of path.now)) × (text.new ≡ splice text.old 0 (beside_of path.now)) }
{
    let named = put(text, 0, path);
    put(text, named, b".mending")
}

// Makes a new file of that path: nothing has it yet.
fn create(rt: HostRuntime, path: &[u8]) -> io::Result<File> {
    let text = path_text(path)?;
    OpenOptions::new()
        .write(true)
        .create_new(true)
        .open(&rt, text)
}

// Writes the image to the file, waits until it has reached its device, and closes the file.
fn write_image(mut file: File, image: &[u8]) -> io::Result<()> {
    file.write_all(image)?;
    file.sync_all()
}

// Takes away a file of ours that is of no more use. Where that fails it stays, and there is nothing else to do.
fn remove(rt: HostRuntime, path: &[u8]) {
    if let Ok(text) = path_text(path) {
        let _ = fs::remove_file(&rt, text);
    }
}

// Gives the file of the first path the second one, in the place of the file that has it.
fn rename(rt: HostRuntime, from: &[u8], to: &[u8]) -> io::Result<()> {
    fs::rename(&rt, path_text(from)?, path_text(to)?)
}

// The path of an image as it is shown, its own, which is as long, and that of the file beside it.
#[derive(Clone, Copy)]
struct Paths<'a> {
    shown: &'a [u8],
    own: &'a [u8],
    beside: &'a [u8],
}

impl Paths<'_> {
    // Tells why the file beside the image was not written. What is in the buffer is of no more use.
    fn tell_beside(&self, rt: HostRuntime, error: io::Error, buffer: &mut [u8]) {
        let size = put_beside(self.shown, buffer);
        fail(rt, part(buffer, 0, size), error);
    }

    // Writes the image, the first `length` bytes of the buffer, to a new file beside that of the image. The
    // answer is whether it did; where not, no file of ours is left there.
    fn write_beside(&self, rt: HostRuntime, length: usize, buffer: &mut [u8]) -> bool {
        let file = match create(rt, self.beside) {
            Ok(file) => file,
            Err(error) => {
                self.tell_beside(rt, error, buffer);
                return false;
            }
        };
        match write_image(file, part(buffer, 0, length)) {
            Ok(()) => true,
            Err(error) => {
                self.tell_beside(rt, error, buffer);
                remove(rt, self.beside);
                false
            }
        }
    }

    // Has the image that is in the buffer in the file of its path.
    fn replace(&self, rt: HostRuntime, length: usize, buffer: &mut [u8]) -> bool {
        if !self.write_beside(rt, length, buffer) {
            return false;
        }
        match rename(rt, self.beside, self.own) {
            Ok(()) => true,
            Err(error) => {
                fail(rt, self.shown, error);
                remove(rt, self.beside);
                false
            }
        }
    }

    // What becomes of the image, once a mended one is written.
    fn settle(&self, rt: HostRuntime, made: Mending, buffer: &mut [u8]) -> Mending {
        let Fate::Mended(length) = made.fate else {
            return made;
        };
        if self.replace(rt, length, buffer) {
            return made;
        }
        Mending {
            mark: made.mark,
            fate: Fate::Unwritten,
        }
    }
}

// How images are mended, the path of the file beside an image, and the buffer that each is read into.
#[derive(Drop)]
struct Mender<'a> {
    rt: HostRuntime,
    layout: Layout,
    beside: &'a mut [u8; PATH_ROOM],
    buffer: &'a mut [u8; IMAGE_ROOM],
}

impl Mender<'_> {
    // The line is put together where the image was, and written at once, so that the lines of several
    // processes on one output do not mix.
    fn write_line(&mut self, mending: Mending, path: &[u8]) -> io::Result<()> {
        let size = mending.put_line(path, self.buffer);
        self.rt.stdout().write_all(part(self.buffer, 0, size))
    }
}

impl Program for Mender<'_> {
    // The path is only shown once its file is read, so its own bytes stay in front of those of the file beside
    // it. A path that has no room there is too long for the system.
    fn take(&mut self, path: &mut [u8]) -> io::Result<Mark> {
        let rt = self.rt;
        let end = put_beside(path, self.beside);
        let buffer = &mut *self.buffer;
        let received = read_file(rt, path, buffer);
        let made = mend_received(self.layout, received, buffer);
        let paths = Paths {
            shown: path,
            own: part(self.beside, 0, path.len()),
            beside: part(self.beside, 0, end),
        };
        let mending = paths.settle(rt, made, buffer);
        self.write_line(mending, path)?;
        Ok(mending.counted_as())
    }

    fn take_unread(&mut self) -> io::Result<Mark> {
        let mending = Mending {
            mark: None,
            fate: Fate::Unread,
        };
        self.write_line(mending, b"")?;
        Ok(mending.counted_as())
    }
}

// Argument 0 is the program's own name. The buffers are arrays, which keep their lengths by their types; of
// a slice of a large array the prover would count them.
fn run(
    rt: HostRuntime,
    argument: &mut [u8; ARGUMENT_ROOM],
    beside: &mut [u8; PATH_ROOM],
    buffer: &mut [u8; IMAGE_ROOM],
) {
    let end = count_arguments(rt);
    let options = read_options(rt, end, argument);
    let wrong = options.unknown || options.verbose || options.sums || options.first == end;
    if usage(rt, options.help, wrong, USAGE) {
        return;
    }
    let mut mender = Mender {
        rt,
        layout: options.layout(),
        beside,
        buffer,
    };
    let outcome = each_image(rt, options.first..end, argument, &mut mender);
    finish(rt, end - options.first, outcome);
}

// The buffers are lent from here, once.
fn main(rt: HostRuntime) {
    let mut argument = [0u8; ARGUMENT_ROOM];
    let mut beside = [0u8; PATH_ROOM];
    let mut buffer = [0u8; IMAGE_ROOM];
    run(rt, &mut argument, &mut beside, &mut buffer);
}
