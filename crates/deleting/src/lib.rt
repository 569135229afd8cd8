// Deleting: the file's number leaves its index, and its sectors are free; they keep their bytes. The call takes any image and any arguments,
// answers that it is done or why it refuses, and leaves the image with the writes of the rules' definition laid over it, and their order in a list that is lent
// for it; a refusal has none.
#![tactic(auto)]

ghost use Rattle.std.specs.Prelude.{◌≡◌, ◌∷◌, ℕ, None, length};
ghost use Rattle.rules.specs.Name.{wrong_place};
ghost use Rattle.rules.specs.Sectors.{sector_of};
ghost use Rattle.rules.specs.Map.{marked_all};
ghost use Rattle.rules.specs.Volume.{places_in};
ghost use Rattle.rules.specs.Sound.{IsFile};
ghost use Rattle.rules.specs.Outcome.{listed, NamedSays, Meets};
ghost use Rattle.rules.specs.Refusal.{named_answered};
ghost use Rattle.rules.specs.Calls.Delete.{deleting, delete_of};

use descriptor::fields::descriptor_of;
use index::index_without;
use map::bits::clear_file;
use opening::find;
use rules::{Layout, Refusal};
use sector::buffer::write_sector;
use sector::bytes::sector_of;
use sector::order::list;

// Sector 0 without the sectors of the file whose descriptor is in sector k.
fn map_without(layout: Layout, sector0: &mut [u8; 256], image: &[u8], k: u16)
    requires { (i : ℕ) × IsFile layout image.now i k }
    ensures { sector0.new ≡ marked_all 0 (sector_of image.now 0) (k ∷ places_in image.now k) }
{
    sector0.copy_from_slice(sector_of(image, 0));
    clear_file(sector0, usize::from(k), descriptor_of(image, k).chain());
}

// Of that file, which the index in sector i lists.
fn delete_at(
    layout: Layout,
    image: &mut [u8],
    i: u16,
    k: u16,
    changes: &mut [u32; 133],
) -> Result<(), Refusal>
    requires { IsFile layout image.old i k }
    ensures meets { Meets (NamedSays None) (deleting image.old i k) (named_answered result) image.old image.new }
    ensures order { changes.new ≡ listed (deleting image.old i k) changes.old }
{
    if descriptor_of(image, k).is_protected() {
        return Err(Refusal::Protected);
    }
    let mut index = [0u8; 256];
    index_without(&mut index, sector_of(image, i), usize::from(k));
    let mut sector0 = [0u8; 256];
    map_without(layout, &mut sector0, image, k);
    write_sector(image, i, &index);
    write_sector(image, 0, &sector0);
    let order = [u32::from(i), 0];
    list(changes, 0, &order);
    Ok(())
}

#[tactic(auto, using(rules::proofs::Opening::changing_misnamed, rules::proofs::Opening::open_misnamed, rules::proofs::Splice::splice_none), unfolding(rules::specs::Outcome::NamedSays, rules::specs::Outcome::order_of, rules::specs::Sectors::written, rules::specs::Calls::Delete::delete_of))]
pub fn delete(
    layout: Layout,
    image: &mut [u8],
    directory: usize,
    name: &[u8],
    changes: &mut [u32; 133],
) -> Result<(), Refusal>
    ensures meets { Meets (NamedSays (wrong_place name.now)) (delete_of layout image.old directory name.now) (named_answered result) image.old image.new }
    ensures order { changes.new ≡ listed (delete_of layout image.old directory name.now) changes.old }
{
    let looked = find(layout, image, directory, name)?;
    let file = looked.file.ok_or(Refusal::Absent)?;
    delete_at(layout, image, looked.index, file.sector, changes)
}
