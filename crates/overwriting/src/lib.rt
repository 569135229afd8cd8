// Overwriting: one data sector of a file, by its offset in the file; by the rule with marks its descriptor before it. The call takes any image and any arguments, answers that it is done or
// why it refuses, and leaves the image with the writes of the rules' definition laid over it, and their order in a list that is lent for it; a refusal has none.
#![tactic(auto)]

ghost use Rattle.std.specs.Prelude.{◌≡◌, ◌∷◌, [], cond, ℕ, None};
ghost use Rattle.rules.specs.Bytes.{splice};
ghost use Rattle.rules.specs.Name.{wrong_place};
ghost use Rattle.rules.specs.Sound.{IsFile};
ghost use Rattle.rules.specs.Outcome.{listed, NamedSays, Meets};
ghost use Rattle.rules.specs.Refusal.{named_answered};
ghost use Rattle.rules.specs.Calls.Overwrite.{overwriting, overwrite_of};

use descriptor::chain::place_at;
use descriptor::fields::descriptor_of;
use descriptor::header::mark_descriptor;
use opening::find;
use rules::{Layout, Refusal};
use sector::buffer::copy;
use sector::order::list;

// The data sector, and by the rule with marks the descriptor before it.
fn list_overwrite(layout: Layout, k: u16, place: u16, changes: &mut [u32; 133])
    ensures { changes.new ≡ splice changes.old 1 (cond layout.marks (2 ∷ (k ∷ (place ∷ []))) (1 ∷ (place ∷ []))) }
{
    if layout.marks {
        let order = [u32::from(k), u32::from(place)];
        list(changes, 0, &order);
        return;
    }
    let order = [u32::from(place)];
    list(changes, 0, &order);
}

// Of the file whose descriptor is in sector k.
fn overwrite_at(
    layout: Layout,
    image: &mut [u8],
    k: u16,
    offset: usize,
    bytes: &[u8],
    changes: &mut [u32; 133],
) -> Result<(), Refusal>
    requires { (i : ℕ) × IsFile layout image.old i k }
    ensures meets { Meets (NamedSays None) (overwriting layout image.old offset bytes.now k) (named_answered result) image.old image.new }
    ensures order { changes.new ≡ listed (overwriting layout image.old offset bytes.now k) changes.old }
{
    let descriptor = descriptor_of(image, k);
    if descriptor.is_protected() {
        return Err(Refusal::Protected);
    }
    if descriptor.is_program() {
        return Err(Refusal::OtherKind);
    }
    if offset >= usize::from(descriptor.sectors()) {
        return Err(Refusal::Argument);
    }
    if bytes.len() != 256 {
        return Err(Refusal::Argument);
    }
    // An offset below the count has a place.
    let place = place_at(descriptor.chain(), offset).unwrap_or(0);
    let at = 256 * usize::from(place);
    let end = at + 256;
    mark_descriptor(layout, image, usize::from(k));
    copy(&mut image[at..end], bytes);
    list_overwrite(layout, k, place, changes);
    Ok(())
}

pub fn overwrite(
    layout: Layout,
    image: &mut [u8],
    directory: usize,
    name: &[u8],
    offset: usize,
    bytes: &[u8],
    changes: &mut [u32; 133],
) -> Result<(), Refusal>
    ensures meets { Meets (NamedSays (wrong_place name.now)) (overwrite_of layout image.old directory name.now offset bytes.now) (named_answered result) image.old image.new }
    ensures order { changes.new ≡ listed (overwrite_of layout image.old directory name.now offset bytes.now) changes.old }
{
    let looked = find(layout, image, directory, name)?;
    let file = looked.file.ok_or(Refusal::Absent)?;
    overwrite_at(layout, image, file.sector, offset, bytes, changes)
}
