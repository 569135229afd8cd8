// The catalogue program's text: the listing of a directory of a sound volume, the line that stands for any other image, and the one or the
// other.
#![tactic(auto)]

ghost use Rattle.std.specs.Prelude.{◌≡◌, length};
ghost use Rattle.rules.specs.Bytes.{splice};
ghost use Rattle.rules.specs.Outcome.{AnswerSays, AmountSays, Gives};
ghost use Rattle.rules.specs.Calls.Listing.{listing_of, refused_line, shown};
ghost use Rattle.rules.specs.Refusal.{answered, amount_answered};

mod fields;
mod lines;

use judge::judge;
use line::{put, put_number};
use lines::put_listing;
use rules::{Layout, Refusal};
use sector::directories::index_at;

// The text is laid down twice, first where there is no room, which gives its length: nothing is written where it does not fit.
#[tactic(auto, using(rules::proofs::Listing::listing_unsound, rules::proofs::Splice::splice_none), unfolding(rules::specs::Outcome::AmountSays))]
pub fn listing(
    layout: Layout,
    image: &[u8],
    directory: usize,
    out: &mut [u8],
) -> Result<usize, Refusal>
    ensures { Gives AmountSays (listing_of layout image.now directory (length out.old)) (amount_answered result) out.old out.new }
{
    judge(layout, image)?;
    let i = index_at(layout, image, directory).ok_or(Refusal::Absent)?;
    let size = put_listing(layout, &mut [], image, i);
    if size > out.len() {
        return Err(Refusal::Argument);
    }
    put_listing(layout, out, image, i);
    Ok(size)
}

// As much of the line as there is room for; its length is given in any case.
pub fn refused_line(number: u32, out: &mut [u8]) -> usize
    ensures { (result ≡ length (refused_line number)) × (out.new ≡ splice out.old 0 (refused_line number)) }
{
    let next = put(out, 0, b"REFUSED ");
    put_number(out, next, number as usize, b'\n')
}

// What a program shows of an image: whether it was listed, and the length of its text.
#[derive(Clone, Copy, Debug, PartialEq, Eq)]
pub struct Shown {
    pub verdict: Result<(), Refusal>,
    pub size: usize,
}

// The listing of an image's root, or the line of its refusal.
pub fn show(layout: Layout, image: &[u8], out: &mut [u8]) -> Shown
    ensures size_value { (result.size ≡ length (shown layout image.now (length out.old))) × (out.new ≡ splice out.old 0 (shown layout image.now (length out.old))) }
    ensures number_value { AnswerSays (answered result.verdict) (listing_of layout image.now 0 (length out.old)).number }
{
    match listing(layout, image, 0, out) {
        Ok(size) => Shown {
            verdict: Ok(()),
            size,
        },
        Err(refusal) => Shown {
            verdict: Err(refusal),
            size: refused_line(u32::from(refusal), out),
        },
    }
}
