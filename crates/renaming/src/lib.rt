// Renaming: the ten name bytes, and the file's place in its index. The call takes any image and any arguments, answers that it is done or
// why it refuses, and leaves the image with the writes of the rules' definition laid over it, and their order in a list that is lent for it; a refusal has none.
#![tactic(auto)]

ghost use Rattle.std.specs.Prelude.{◌≡◌, None, true, replicate};
ghost use Rattle.rules.specs.Name.{name_rule, wrong_place};
ghost use Rattle.rules.specs.Index.{index_of, without};
ghost use Rattle.rules.specs.Volume.{files_in, placed};
ghost use Rattle.rules.specs.Sound.{IsFile};
ghost use Rattle.rules.specs.Outcome.{listed, RenameSays, Meets};
ghost use Rattle.rules.specs.Refusal.{rename_answered};
ghost use Rattle.rules.specs.Calls.Rename.{renaming, rename_of};

use descriptor::fields::descriptor_of;
use descriptor::header::mark_descriptor;
use descriptor::name::wrong_place;
use index::{index_with, index_without};
use judge::judge;
use opening::{find_in, in_directory};
use rules::{Layout, Refusal, RenameRefusal};
use sector::buffer::{lay, write_sector};
use sector::bytes::sector_of;
use sector::order::list;

// The index in sector i with the number k where the new name belongs, laid into 256 zeros.
fn moved(layout: Layout, index: &mut [u8; 256], image: &[u8], i: u16, k: u16, new: &[u8])
    requires { (index.old ≡ replicate 256 0) × IsFile layout image.now i k }
    ensures { index.new ≡ index_of (placed image.now new.now k (without k (files_in image.now i))) }
{
    let mut others = [0u8; 256];
    index_without(&mut others, sector_of(image, i), usize::from(k));
    index_with(index, image, &others, new, k);
}

// Of the file whose descriptor is in sector k, and which the index in sector i lists.
fn rename_at(
    layout: Layout,
    image: &mut [u8],
    i: u16,
    k: u16,
    new: &[u8],
    changes: &mut [u32; 133],
) -> Result<(), RenameRefusal>
    requires { IsFile layout image.old i k × (name_rule new.now ≡ true) }
    ensures meets { Meets (RenameSays None None) (renaming layout image.old new.now i k) (rename_answered result) image.old image.new }
    ensures order { changes.new ≡ listed (renaming layout image.old new.now i k) changes.old }
{
    if find_in(image, i, new).is_some() {
        return Err(RenameRefusal::Other(Refusal::Present));
    }
    if descriptor_of(image, k).is_protected() {
        return Err(RenameRefusal::Other(Refusal::Protected));
    }
    let mut index = [0u8; 256];
    moved(layout, &mut index, image, i, k, new);
    // The name is the front of the descriptor; but for the mark the rest of that sector stays.
    let at = 256 * usize::from(k);
    mark_descriptor(layout, image, usize::from(k));
    lay(image, at, new);
    write_sector(image, i, &index);
    let order = [u32::from(k), u32::from(i)];
    list(changes, 0, &order);
    Ok(())
}

pub fn rename(
    layout: Layout,
    image: &mut [u8],
    directory: usize,
    old: &[u8],
    new: &[u8],
    changes: &mut [u32; 133],
) -> Result<(), RenameRefusal>
    ensures meets { Meets (RenameSays (wrong_place old.now) (wrong_place new.now)) (rename_of layout image.old directory old.now new.now) (rename_answered result) image.old image.new }
    ensures order { changes.new ≡ listed (rename_of layout image.old directory old.now new.now) changes.old }
{
    judge(layout, image)?;
    if let Some(place) = wrong_place(old) {
        return Err(RenameRefusal::OldMisnamed(place));
    }
    if let Some(place) = wrong_place(new) {
        return Err(RenameRefusal::NewMisnamed(place));
    }
    let looked = in_directory(layout, image, directory, old)?;
    let file = looked.file.ok_or(Refusal::Absent)?;
    rename_at(layout, image, looked.index, file.sector, new, changes)
}
