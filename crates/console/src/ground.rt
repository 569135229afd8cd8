// Why an image is marked as it is, in words. The texts of 1 to 6 are those of `pno_text` in the header.
ghost use Rattle.std.specs.Prelude.{◌≡◌, ◌+◌, ◌<◌, ◌≤◌, length};
ghost use Rattle.line.specs.Laid.{Laid};
ghost use Rattle.console.specs.Ground.{ground_of};

use line::put;

// `mark` is the judge's number as a digit, or `-` for an image that was not read.
#[tactic(auto, unfolding(crate::specs::Ground::ground_of, line::specs::Letters::letters))]
fn ground_of(mark: u8) -> &'static [u8]
    ensures { (result.now ≡ ground_of mark) × (length result.now ≤ 42) }
{
    match mark {
        b'0' => b"a sound volume",
        b'1' => b"the image's length is not that of a volume",
        b'2' => b"sector 0 is no label",
        b'3' => b"a directory is no list of files",
        b'4' => b"a file's descriptor breaks a rule",
        b'5' => b"a sector has two holders",
        b'6' => b"the map is not that of the files",
        _ => b"not read",
    }
}

// The ground in words, from `at` on.
pub fn put_ground(text: &mut [u8], at: usize, mark: u8) -> usize
    requires { at + 42 < 18446744073709551616 }
    ensures { Laid 42 text.old text.new at result (ground_of mark) }
{
    put(text, at, ground_of(mark))
}
