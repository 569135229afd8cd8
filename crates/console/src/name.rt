// The name of an image as a line shows it, and as the path of its file.
ghost use Rattle.std.specs.Prelude.{◌≡◌, IfOk};
ghost use Rattle.console.specs.Name.{one_line};

use std::io;
use std::str::from_utf8;

// A newline in a name would begin another line: a question mark stands for it.
pub fn one_line(name: &mut [u8])
    ensures { name.new ≡ one_line name.old }
{
    for byte in name.iter_mut() {
        if *byte == b'\n' {
            *byte = b'?';
        }
    }
}

// The same bytes as text, which the path of a file has to be. Any other is an invalid file name.
pub fn path_text(name: &[u8]) -> io::Result<&str>
    ensures { IfOk result (λ text. text.now ≡ name.now) }
{
    from_utf8(name).map_err(|_| io::Error::from(io::ErrorKind::InvalidFilename))
}
