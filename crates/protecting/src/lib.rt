// Protecting and unprotecting, and clearing a mark: the 08 bit and the 10 bit of a file's status, set where it stands, in byte 12 of the descriptor. Each call takes any image and
// any arguments, answers that it is done or why it refuses, and leaves the image with the writes of the rules' definition laid over it, and their order in a list that is lent for it; a refusal has none.
#![tactic(auto)]

ghost use Rattle.std.specs.Prelude.{◌≡◌, ◌<◌};
ghost use Rattle.rules.specs.Name.{wrong_place};
ghost use Rattle.rules.specs.Outcome.{listed, NamedSays, Meets};
ghost use Rattle.rules.specs.Refusal.{named_answered};
ghost use Rattle.rules.specs.Calls.Protect.{set_bit_of, protect_of, unprotect_of, clear_of};

use map::bits::with_bit;
use opening::find;
use rules::{Layout, Refusal};
use sector::order::list;

// Bit j of the status made `bit`.
fn set_bit(
    layout: Layout,
    image: &mut [u8],
    directory: usize,
    name: &[u8],
    j: usize,
    bit: u8,
    changes: &mut [u32; 133],
) -> Result<(), Refusal>
    requires { (j < 8) × (bit < 2) }
    ensures meets { Meets (NamedSays (wrong_place name.now)) (set_bit_of layout j bit image.old directory name.now) (named_answered result) image.old image.new }
    ensures order { changes.new ≡ listed (set_bit_of layout j bit image.old directory name.now) changes.old }
{
    let looked = find(layout, image, directory, name)?;
    let file = looked.file.ok_or(Refusal::Absent)?;
    let at = 256 * usize::from(file.sector) + 12;
    image[at] = with_bit(image[at], j, bit);
    let order = [u32::from(file.sector)];
    list(changes, 0, &order);
    Ok(())
}

pub fn protect(
    layout: Layout,
    image: &mut [u8],
    directory: usize,
    name: &[u8],
    changes: &mut [u32; 133],
) -> Result<(), Refusal>
    ensures meets { Meets (NamedSays (wrong_place name.now)) (protect_of layout image.old directory name.now) (named_answered result) image.old image.new }
    ensures order { changes.new ≡ listed (protect_of layout image.old directory name.now) changes.old }
{
    set_bit(layout, image, directory, name, 3, 1, changes)
}

pub fn unprotect(
    layout: Layout,
    image: &mut [u8],
    directory: usize,
    name: &[u8],
    changes: &mut [u32; 133],
) -> Result<(), Refusal>
    ensures meets { Meets (NamedSays (wrong_place name.now)) (unprotect_of layout image.old directory name.now) (named_answered result) image.old image.new }
    ensures order { changes.new ≡ listed (unprotect_of layout image.old directory name.now) changes.old }
{
    set_bit(layout, image, directory, name, 3, 0, changes)
}

// By the rule with marks, whichever the layout has.
pub fn clear_mark(
    layout: Layout,
    image: &mut [u8],
    directory: usize,
    name: &[u8],
    changes: &mut [u32; 133],
) -> Result<(), Refusal>
    ensures meets { Meets (NamedSays (wrong_place name.now)) (clear_of layout image.old directory name.now) (named_answered result) image.old image.new }
    ensures order { changes.new ≡ listed (clear_of layout image.old directory name.now) changes.old }
{
    let with_marks = Layout {
        marks: true,
        directories: layout.directories,
    };
    set_bit(with_marks, image, directory, name, 4, 0, changes)
}
