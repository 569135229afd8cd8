// The options that stand in front of the images on a command line.
ghost use Rattle.std.specs.Prelude.{◌≡◌, true, cond, ◌≤◌};
ghost use Rattle.std.specs.Io.{ReadsAtMost};
ghost use Rattle.console.specs.Options.{word_of};

use crate::reason::fail;
use rules::Layout;
use std::env::FillError;
use std::io;
use std::rt::Env;

// One byte more than the longest argument that Linux passes where a page has 4,096 bytes.
pub const ARGUMENT_ROOM: usize = 131072;

// What an argument asks for: the usage, grounds in words, sums, the rule with marks, the edition with directories; that the options end here;
// nothing that is known; or an image, behind which there are no options.
#[derive(Clone, Copy)]
enum Word {
    Help,
    Verbose,
    Sums,
    Marks,
    Directories,
    End,
    Unknown,
    Image,
}

// Which options there are, whether there is one that no program has, and the place of the first image.
#[derive(Clone, Copy, Default)]
pub struct Options {
    pub help: bool,
    pub verbose: bool,
    pub sums: bool,
    pub marks: bool,
    pub directories: bool,
    pub unknown: bool,
    pub first: usize,
}

impl Options {
    // The rules that the images are read by.
    pub fn layout(&self) -> Layout
        ensures { (result.marks ≡ self.now.marks) × (result.directories ≡ self.now.directories) }
    {
        Layout {
            marks: self.marks,
            directories: self.directories,
        }
    }
}

#[tactic(auto, using(crate::proofs::Words::word_by_bytes, std::proofs::lemmas::Bool::Decides::nat_tests))]
fn word_of(argument: &[u8]) -> Word
    ensures { result ≡ word_of argument.now }
{
    match argument {
        b"-h" | b"--help" => Word::Help,
        b"-v" => Word::Verbose,
        b"--sums" => Word::Sums,
        b"--marks" => Word::Marks,
        b"--directories" => Word::Directories,
        b"--" => Word::End,
        [b'-', _, ..] => Word::Unknown,
        _ => Word::Image,
    }
}

// How many arguments the program was started with, its own name among them.
pub fn count_arguments(rt: HostRuntime) -> usize {
    for position in 0..usize::MAX {
        if let Err(FillError::NotPresent) = rt.arg(position, &mut []) {
            return position;
        }
    }
    usize::MAX
}

// The error that the system has for an argument that was not read: one that is longer than the buffer is a name that is too long (ENAMETOOLONG), and
// one that is missing an invalid place (EINVAL).
fn argument_error(error: FillError) -> io::Error {
    match error {
        FillError::TooLong => io::Error::from_raw_os_error(36),
        FillError::NotPresent => io::Error::from_raw_os_error(22),
    }
}

// Puts an argument at the start of the buffer and gives its length. Of the argument, and of a buffer that has no room for it, nothing can be said.
pub fn read_argument(rt: HostRuntime, position: usize, argument: &mut [u8]) -> io::Result<usize>
    ensures { ReadsAtMost result argument.new }
{
    rt.arg(position, argument).map_err(argument_error)
}

// An argument that is too long to be read is taken for an image: what is done with it tells the reason.
fn word_at(rt: HostRuntime, position: usize, argument: &mut [u8]) -> Word {
    match read_argument(rt, position, argument) {
        Ok(length) => word_of(&argument[..length]),
        Err(_) => Word::Image,
    }
}

// Argument 0 is the program's own name.
pub fn read_options(rt: HostRuntime, count: usize, argument: &mut [u8; ARGUMENT_ROOM]) -> Options
    ensures { result.first ≤ count }
{
    let mut options = Options::default();
    for position in 1..count {
        options.first = position;
        match word_at(rt, position, argument) {
            Word::Help => options.help = true,
            Word::Verbose => options.verbose = true,
            Word::Sums => options.sums = true,
            Word::Marks => options.marks = true,
            Word::Directories => options.directories = true,
            Word::Unknown => options.unknown = true,
            Word::End => {
                options.first = position + 1;
                return options;
            }
            Word::Image => return options,
        }
    }
    options.first = count;
    options
}

// Writes the usage where it is asked for, or, to standard error, where the command line is wrong: an option is none of the
// program's, or an image is missing that it needs. The answer is whether it did: then there is nothing else to do.
pub fn usage(rt: HostRuntime, help: bool, wrong: bool, text: &[u8]) -> bool
    ensures { result ≡ cond help true wrong }
{
    if help {
        if let Err(error) = rt.stdout().write_all(text) {
            fail(rt, b"standard output", error);
        }
        return true;
    }
    if wrong {
        let _ = rt.stderr().write_all(text);
    }
    wrong
}
