// Appending: one sector more of a file. The call takes any image and any arguments, says whether it refuses and why, and leaves the image with the
// writes of the rules' definition laid over it, and their order in a list that is lent for it; a refusal has none.
#![tactic(auto)]

ghost use Rattle.std.specs.Prelude.{◌≡◌, None, ℕ, ◌+◌, length};
ghost use Rattle.rules.specs.Name.{wrong_place};
ghost use Rattle.rules.specs.Chain.{blocks, extended};
ghost use Rattle.rules.specs.Descriptor.{sectors_of, chain_of, with_chain, marked_by};
ghost use Rattle.rules.specs.Map.{marked};
ghost use Rattle.rules.specs.Sectors.{sector_of, written};
ghost use Rattle.rules.specs.Sound.{IsFile};
ghost use Rattle.rules.specs.Choice.{data_choice};
ghost use Rattle.rules.specs.Outcome.{listed, NamedSays, Meets};
ghost use Rattle.rules.specs.Calls.Append.{append_writes, appending, append_of};
ghost use Rattle.rules.specs.Refusal.{named_answered};
ghost use Rattle.extension.specs.Built.{Extendable};

use descriptor::fields::descriptor_of;
use descriptor::kind::marking;
use extension::{Tip, extend};
use map::bits::mark;
use map::choice::Search;
use map::free::free_count_of;
use opening::find;
use rules::{Layout, Refusal};
use sector::buffer::write_sector;
use sector::bytes::sector_of;
use sector::numbers::lay_number;
use sector::order::list;

// The descriptor of the file with the sector `new` behind its chain, marked by the rule.
fn longer(layout: Layout, to: &mut [u8; 256], descriptor: &[u8], tip: Tip, new: u16)
    requires { (length descriptor.now ≡ 256) × Extendable (chain_of descriptor.now) tip new × (sectors_of descriptor.now ≡ tip.next) }
    ensures { to.new ≡ with_chain (marked_by layout descriptor.now) (sectors_of descriptor.now + 1) (extended 0 (blocks (chain_of descriptor.now)) new) }
{
    to.copy_from_slice(descriptor);
    to[12] = marking(layout, to[12]);
    lay_number(to, 14, tip.next as u16 + 1);
    extend(&mut to[28..256], tip, usize::from(new));
}

// Sector 0 with the sector `new` taken.
fn map_with(sector0: &mut [u8; 256], image: &[u8], new: u16)
    requires { length (sector_of image.now 0) ≡ 256 }
    ensures { sector0.new ≡ marked 1 (sector_of image.now 0) new }
{
    sector0.copy_from_slice(sector_of(image, 0));
    mark(sector0, usize::from(new));
}

// The three sectors, in the order of the definition.
fn write_longer(layout: Layout, image: &mut [u8], k: u16, bytes: &[u8], tip: Tip, new: u16)
    requires { ((i : ℕ) × IsFile layout image.old i k) × (new ≡ data_choice (sector_of image.old 0)) × Extendable (chain_of (sector_of image.old k)) tip new × (sectors_of (sector_of image.old k) ≡ tip.next) }
    ensures { image.new ≡ written image.old (append_writes layout image.old bytes.now k) }
{
    let mut descriptor = [0u8; 256];
    longer(layout, &mut descriptor, sector_of(image, k), tip, new);
    let mut sector0 = [0u8; 256];
    map_with(&mut sector0, image, new);
    write_sector(image, new, bytes);
    write_sector(image, 0, &sector0);
    write_sector(image, k, &descriptor);
}

// Of the file whose descriptor is in sector k.
fn append_at(
    layout: Layout,
    image: &mut [u8],
    k: u16,
    bytes: &[u8],
    changes: &mut [u32; 133],
) -> Result<(), Refusal>
    requires { (i : ℕ) × IsFile layout image.old i k }
    ensures meets { Meets (NamedSays None) (appending layout image.old bytes.now k) (named_answered result) image.old image.new }
    ensures order { changes.new ≡ listed (appending layout image.old bytes.now k) changes.old }
{
    let file = descriptor_of(image, k);
    if file.is_protected() {
        return Err(Refusal::Protected);
    }
    if file.is_program() {
        return Err(Refusal::OtherKind);
    }
    if bytes.len() != 256 {
        return Err(Refusal::Argument);
    }
    if free_count_of(sector_of(image, 0)) == 0 {
        return Err(Refusal::DiskFull);
    }
    let new = Search::first().next(sector_of(image, 0)).sector as u16;
    let tip = Tip::of(file.chain());
    if tip.with(usize::from(new)).used > 76 {
        return Err(Refusal::ChainFull);
    }
    write_longer(layout, image, k, bytes, tip, new);
    let order = [u32::from(new), 0, u32::from(k)];
    list(changes, 0, &order);
    Ok(())
}

pub fn append(
    layout: Layout,
    image: &mut [u8],
    directory: usize,
    name: &[u8],
    bytes: &[u8],
    changes: &mut [u32; 133],
) -> Result<(), Refusal>
    ensures meets { Meets (NamedSays (wrong_place name.now)) (append_of layout image.old directory name.now bytes.now) (named_answered result) image.old image.new }
    ensures order { changes.new ≡ listed (append_of layout image.old directory name.now bytes.now) changes.old }
{
    let looked = find(layout, image, directory, name)?;
    let file = looked.file.ok_or(Refusal::Absent)?;
    append_at(layout, image, file.sector, bytes, changes)
}
