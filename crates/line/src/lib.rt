// The pieces of a line of text: bytes and numbers. Each lays its bytes over the buffer from `at` on, as far as there is
// room, and answers the place after them, which has to be a usize.
#![tactic(auto)]

ghost use Rattle.std.specs.Prelude.{◌≡◌, [], ◌∷◌, ◌++◌, ◌+◌, ◌<◌, length};
ghost use Rattle.rules.specs.Calls.Listing.{decimal};
ghost use Rattle.line.specs.Laid.{Laid};

use sector::buffer::lay;

pub fn put(text: &mut [u8], at: usize, bytes: &[u8]) -> usize
    requires { at + length bytes.now < 18446744073709551616 }
    ensures { Laid (length bytes.now) text.old text.new at result bytes.now }
{
    lay(text, at, bytes);
    at + bytes.len()
}

fn digit(value: usize) -> u8
    requires { value < 10 }
    ensures { result ≡ 48 + value }
{
    b'0' + value as u8
}

// A number in decimal, then the mark that ends it, as a space or a newline. The digits come last one first, so they are
// set from the end of an array that holds the largest number. The loop ends with the number and keeps the place of its first digit, which a `for` over the places would
// have to carry out of it.
pub fn put_number(text: &mut [u8], at: usize, number: usize, mark: u8) -> usize
    requires { at + 21 < 18446744073709551616 }
    ensures { Laid 21 text.old text.new at result (decimal number ++ (mark ∷ [])) }
{
    let mut figures = [0u8; 21];
    figures[20] = mark;
    let mut left = number;
    let mut first = 19;
    while left >= 10 {
        figures[first] = digit(left % 10);
        left /= 10;
        first -= 1;
    }
    figures[first] = digit(left);
    put(text, at, &figures[first..])
}
