// How many images of a run were sound, had each number, or were not read.
ghost use Rattle.std.specs.Prelude.{◌≡◌, ◌≤◌, length};
ghost use Rattle.line.specs.Laid.{Laid};
ghost use Rattle.console.specs.Tally.{place_of, counted, count_text, numbers_text, images_text, sound_text, tally_text};

use line::{put, put_number};
use sector::bytes::part;

// Eight counts: at 0 the sound images, at 1 to 6 those of that number, at 7 the unread ones.
#[derive(Clone, Copy, Default)]
pub struct Tally {
    pub counts: [usize; 8],
}

// The place of a mark among the counts: that of its digit, or the last for any other.
#[tactic(auto, unfolding(crate::specs::Tally::place_of))]
fn place_of(mark: u8) -> usize
    ensures { (result ≡ place_of mark) × (result ≤ 7) }
{
    match mark {
        b'0'..=b'6' => usize::from(mark - b'0'),
        _ => 7,
    }
}

// A comma and how many images there are of a kind; nothing where there is none.
fn put_count(text: &mut [u8], at: usize, count: usize, words: &[u8]) -> usize
    requires { (at ≤ 1000) × (length words.now ≤ 11) }
    ensures { Laid 34 text.old text.new at result (count_text count words.now) }
{
    if count == 0 {
        return at;
    }
    let next = put(text, at, b", ");
    let counted = put_number(text, next, count, b' ');
    put(text, counted, words)
}

// What so many images are called.
#[tactic(auto, unfolding(crate::specs::Tally::images_text, line::specs::Letters::letters))]
fn images_text(images: usize) -> &'static [u8]
    ensures { (result.now ≡ images_text images) × (length result.now ≤ 8) }
{
    match images {
        1 => b"image: ",
        _ => b"images: ",
    }
}

// How many images there were, and how many of them were sound.
fn put_sound(text: &mut [u8], images: usize, sound: usize) -> usize
    ensures { Laid 55 text.old text.new 0 result (sound_text images sound) }
{
    let counted = put_number(text, 0, images, b' ');
    let named = put(text, counted, images_text(images));
    let next = put_number(text, named, sound, b' ');
    put(text, next, b"sound")
}

// Counts an image by the digit of its mark, and by any other byte as unread. A count stays where it has reached the most that a usize holds.
#[tactic(auto, unfolding(crate::specs::Tally::counted, crate::specs::Tally::more))]
pub fn count(tally: &mut [usize; 8], mark: u8)
    ensures { tally.new ≡ counted tally.old mark }
{
    let place = place_of(mark);
    tally[place] = tally[place].saturating_add(1);
}

// Writes the last line of a run to standard error.
pub fn tell(rt: HostRuntime, images: usize, tally: &[usize; 8]) {
    Tally { counts: *tally }.tell(rt, images)
}

impl Tally {
    // Counts an image, as `count` does.
    pub fn count(&mut self, mark: u8)
        ensures { self.new.counts ≡ counted self.old.counts mark }
    {
        count(&mut self.counts, mark);
    }

    // Those of the numbers 1 to 6.
    fn put_numbers(&self, text: &mut [u8], at: usize) -> usize
        requires { at ≤ 100 }
        ensures { Laid 204 text.old text.new at result (numbers_text self.now.counts) }
    {
        let mut next = at;
        let mut words = *b"of number 0";
        for count in &self.counts[1..7] {
            // the digit in the words
            words[10] += 1;
            next = put_count(text, next, *count, &words);
        }
        next
    }

    // The last line of a run. As much of it as there is room for; its length is given in any case.
    fn put_tally(&self, text: &mut [u8], images: usize) -> usize
        ensures { Laid 294 text.old text.new 0 result (tally_text images self.now.counts) }
    {
        let sound = put_sound(text, images, self.counts[0]);
        let numbered = self.put_numbers(text, sound);
        let unread = put_count(text, numbered, self.counts[7], b"unread");
        put(text, unread, b"\n")
    }

    // Writes the last line of a run to standard error.
    pub fn tell(&self, rt: HostRuntime, images: usize) {
        let mut text = [0u8; 294];
        let size = self.put_tally(&mut text, images);
        let _ = rt.stderr().write_all(part(&text, 0, size));
    }
}
