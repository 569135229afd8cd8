// The images that a command line names, one after the other, as a program takes them.
ghost use Rattle.std.specs.Prelude.{◌≡◌, ◌-◌, IfOk};
ghost use Rattle.console.specs.Tally.{images_in};

use crate::mark::{Mark, digit_of};
use crate::options::{ARGUMENT_ROOM, read_argument};
use crate::reason::fail;
use crate::tally::Tally;
use std::io;
use std::ops::Range;

// What a program does with an image. Each answer is the mark that the image counts by, or why its line could not be written.
pub trait Program {
    // Takes the image in the file of that path, and writes its line.
    fn take(&mut self, path: &mut [u8]) -> io::Result<Mark>;

    // Writes the line of an image whose path could not be read: why was told.
    fn take_unread(&mut self) -> io::Result<Mark>;
}

// Has the program take the image at each of these places of the command line, and counts them, each once. A line that cannot be written
// ends the run: no later one would do better.
pub fn each_image<P: Program>(
    rt: HostRuntime,
    places: Range<usize>,
    argument: &mut [u8; ARGUMENT_ROOM],
    program: &mut P,
) -> io::Result<Tally>
    ensures { IfOk result (λ tally. images_in tally.counts ≡ places.end - places.start) }
{
    let mut tally = Tally::default();
    for position in places {
        let mark = match read_argument(rt, position, argument) {
            Ok(length) => program.take(&mut argument[..length])?,
            Err(error) => {
                fail(rt, b"argument", error);
                program.take_unread()?
            }
        };
        tally.count(digit_of(mark));
    }
    Ok(tally)
}

// Ends a run of so many images: tells how many there were of each number, or why standard output could not be written.
pub fn finish(rt: HostRuntime, images: usize, outcome: io::Result<Tally>) {
    match outcome {
        Ok(tally) => tally.tell(rt, images),
        Err(error) => fail(rt, b"standard output", error),
    }
}
