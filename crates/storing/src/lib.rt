// Storing: a program's bytes become a file. All its sectors are chosen before the first is written. The call takes any image and any
// arguments, says whether it refuses and why, and leaves the image with the writes of the rules' definition laid over it, and their order in a list that is
// lent for it; a refusal has none.
#![tactic(auto)]

ghost use Rattle.std.specs.Prelude.{◌≡◌, None, true, cond, [], ◌*◌, ◌%◌, ◌≤◌, leb, length, replicate};
ghost use Rattle.rules.specs.Bytes.{word_bytes, over, splice};
ghost use Rattle.rules.specs.Sectors.{sector_of, written};
ghost use Rattle.rules.specs.Name.{name_rule, wrong_place};
ghost use Rattle.rules.specs.Chain.{places};
ghost use Rattle.rules.specs.Kind.{sectors_for, marking};
ghost use Rattle.rules.specs.Descriptor.{new_descriptor};
ghost use Rattle.rules.specs.Sound.{IsIndexed, Sound};
ghost use Rattle.rules.specs.Choice.{descriptor_choice};
ghost use Rattle.rules.specs.Outcome.{listed, NamedSays, Meets};
ghost use Rattle.rules.specs.Calls.Store.{data_writes, new_sectors, new_blocks, storing, store_of};
ghost use Rattle.rules.specs.Refusal.{named_answered};
ghost use Rattle.storing.specs.Program.{program_writes};
ghost use Rattle.storing.specs.Spread.{Spread};

use descriptor::chain::places_of;
use descriptor::header::new_descriptor;
use descriptor::kind::marking;
use extension::{Tip, extend};
use index::enter;
use map::bits::mark;
use map::choice::{Search, descriptor_choice};
use map::free::free_count_of;
use opening::find;
use rules::{Layout, Refusal};
use sector::buffer::{lay, lay_fill, write_sector};
use sector::bytes::{part, sector_of, word};
use sector::numbers::lay_number;
use sector::order::list;

// Takes `many` sectors for data in the map and puts them into the chain, one after another; false where a 77th block would be needed.
fn spread(sector0: &mut [u8; 256], chain: &mut [u8], many: usize) -> bool
    requires { (chain.old ≡ replicate 228 0) × (many ≤ 128) }
    ensures { Spread many sector0.old result sector0.new chain.new }
{
    let mut search = Search::first();
    let mut tip = Tip::default();
    for _ in 0..many {
        search = search.next(sector0);
        let k = search.sector;
        if tip.with(k).used > 76 {
            return false;
        }
        tip = extend(chain, tip, k);
        mark(sector0, k);
    }
    true
}

// A piece of the data and zeros behind it, as a whole sector.
fn write_piece(image: &mut [u8], k: u16, piece: &[u8])
    requires { length piece.now ≤ 256 }
    ensures { image.new ≡ splice image.old (256 * k) (over (replicate 256 0) piece.now) }
{
    let at = 256 * usize::from(k);
    let many = piece.len();
    lay(image, at, piece);
    lay_fill(image, at + many, 256 - many, 0);
}

// The bytes go to the sectors of the chain, in file order; what the last of them does not fill is zeros. The sectors are listed as they are written.
fn write_data(image: &mut [u8], chain: &[u8], bytes: &[u8], changes: &mut [u32; 133])
    requires { length (places chain.now) ≤ 128 }
    ensures image_after { image.new ≡ written image.old (data_writes bytes.now (places chain.now)) }
    ensures order { changes.new ≡ splice changes.old 2 (places chain.now) }
{
    for (number, place) in places_of(chain).enumerate() {
        write_piece(image, place, part(bytes, 256 * number, 256));
        changes[2 + number] = u32::from(place);
    }
}

// The descriptor of a program of `size` bytes, in `many` sectors, laid into 256 zeros, its chain still empty.
fn program_header(layout: Layout, descriptor: &mut [u8; 256], name: &[u8], size: usize, many: u16)
    requires { (descriptor.old ≡ replicate 256 0) × (length name.now ≡ 10) }
    ensures { descriptor.new ≡ splice (new_descriptor name.now (marking layout 0x01) 0 (size % 256) 0) 14 (word_bytes many) }
{
    let end_offset = (size % 256) as u8;
    new_descriptor(descriptor, name, marking(layout, 0x01), 0, end_offset, 0);
    lay_number(descriptor, 14, many);
}

// What is written of a program before it is entered, in the order of the definition; false where a 77th block would be needed, and then nothing is.
fn write_program(
    layout: Layout,
    image: &mut [u8],
    k: u16,
    name: &[u8],
    many: usize,
    bytes: &[u8],
    changes: &mut [u32; 133],
) -> bool
    requires { (256 ≤ length image.old) × (length name.now ≡ 10) × (length bytes.now ≤ 32768) × (many ≡ sectors_for (length bytes.now)) × (k ≡ descriptor_choice (sector_of image.old 0)) }
    ensures value { (result ≡ leb (length (new_blocks image.old many)) 76) × (image.new ≡ written image.old (cond result (program_writes layout image.old name.now bytes.now) [])) }
    ensures order { changes.new ≡ splice changes.old 2 (cond result (new_sectors image.old many) []) }
{
    let mut sector0 = [0u8; 256];
    sector0.copy_from_slice(&image[0..256]);
    mark(&mut sector0, usize::from(k));
    let mut descriptor = [0u8; 256];
    program_header(layout, &mut descriptor, name, bytes.len(), many as u16);
    if !spread(&mut sector0, &mut descriptor[28..256], many) {
        return false;
    }
    write_data(image, &descriptor[28..256], bytes, changes);
    write_sector(image, k, &descriptor);
    write_sector(image, 0, &sector0);
    true
}

// On a sound volume, under a name that keeps the rule and is not there in the index in sector i.
fn store_new(
    layout: Layout,
    image: &mut [u8],
    i: u16,
    name: &[u8],
    bytes: &[u8],
    changes: &mut [u32; 133],
) -> Result<(), Refusal>
    requires { Sound layout image.old × IsIndexed layout image.old i × (name_rule name.now ≡ true) }
    ensures meets { Meets (NamedSays None) (storing layout image.old name.now bytes.now i) (named_answered result) image.old image.new }
    ensures order { changes.new ≡ listed (storing layout image.old name.now bytes.now i) changes.old }
{
    if bytes.len() > 32768 {
        return Err(Refusal::Argument);
    }
    // the 127th number of the index
    if word(sector_of(image, i), 252) != 0 {
        return Err(Refusal::DirectoryFull);
    }
    let many = bytes.len().div_ceil(256);
    if free_count_of(sector_of(image, 0)) < 1 + many {
        return Err(Refusal::DiskFull);
    }
    let k = descriptor_choice(sector_of(image, 0));
    if !write_program(layout, image, k, name, many, bytes, changes) {
        return Err(Refusal::ChainFull);
    }
    enter(image, i, name, k);
    let order = [u32::from(k), 0, u32::from(i)];
    list(changes, many, &order);
    Ok(())
}

pub fn store(
    layout: Layout,
    image: &mut [u8],
    directory: usize,
    name: &[u8],
    bytes: &[u8],
    changes: &mut [u32; 133],
) -> Result<(), Refusal>
    ensures meets { Meets (NamedSays (wrong_place name.now)) (store_of layout image.old directory name.now bytes.now) (named_answered result) image.old image.new }
    ensures order { changes.new ≡ listed (store_of layout image.old directory name.now bytes.now) changes.old }
{
    let looked = find(layout, image, directory, name)?;
    if looked.file.is_some() {
        return Err(Refusal::Present);
    }
    store_new(layout, image, looked.index, name, bytes, changes)
}
