// Creating: a file without sectors. The call takes any image and any arguments, says whether it refuses and why, and leaves the image with the
// writes of the rules' definition laid over it, and their order in a list that is lent for it; a refusal has none.
#![tactic(auto)]

ghost use Rattle.std.specs.Prelude.{◌≡◌, None, true, ◌*◌, length};
ghost use Rattle.rules.specs.Bytes.{splice};
ghost use Rattle.rules.specs.Name.{name_rule, wrong_place};
ghost use Rattle.rules.specs.Descriptor.{new_descriptor};
ghost use Rattle.rules.specs.Sound.{IsIndexed, Sound};
ghost use Rattle.rules.specs.Outcome.{listed, NamedSays, Meets};
ghost use Rattle.rules.specs.Calls.Create.{create_status, creating, create_of};
ghost use Rattle.rules.specs.Refusal.{named_answered};

use descriptor::header::new_descriptor;
use descriptor::kind::marking;
use index::enter;
use map::bits::mark;
use map::choice::descriptor_choice;
use map::free::free_count_of;
use opening::find;
use rules::{Layout, Refusal};
use sector::buffer::write_sector;
use sector::bytes::{sector_of, word};
use sector::order::list;

// The four that a file can be created with.
#[tactic(auto, unfolding(rules::specs::Calls::Create::create_status))]
fn create_status(status: u8) -> bool
    ensures { result ≡ create_status status }
{
    matches!(status, 0x00 | 0x02 | 0x80 | 0x82)
}

// The descriptor of the new file, written to sector k.
fn write_descriptor(
    image: &mut [u8],
    k: u16,
    name: &[u8],
    status: u8,
    records_per_sector: u8,
    record_length: u8,
)
    requires { length name.now ≡ 10 }
    ensures { image.new ≡ splice image.old (256 * k) (new_descriptor name.now status records_per_sector 0 record_length) }
{
    let mut descriptor = [0u8; 256];
    new_descriptor(
        &mut descriptor,
        name,
        status,
        records_per_sector,
        0,
        record_length,
    );
    write_sector(image, k, &descriptor);
}

// On a sound volume, under a name that keeps the rule and is not there in the index in sector i.
fn create_new(
    layout: Layout,
    image: &mut [u8],
    i: u16,
    name: &[u8],
    status: u8,
    record_length: u8,
    records_per_sector: u8,
    changes: &mut [u32; 133],
) -> Result<(), Refusal>
    requires { Sound layout image.old × IsIndexed layout image.old i × (name_rule name.now ≡ true) }
    ensures meets { Meets (NamedSays None) (creating layout image.old name.now status record_length records_per_sector i) (named_answered result) image.old image.new }
    ensures order { changes.new ≡ listed (creating layout image.old name.now status record_length records_per_sector i) changes.old }
{
    if !create_status(status) {
        return Err(Refusal::Argument);
    }
    // the 127th number of the index
    if word(sector_of(image, i), 252) != 0 {
        return Err(Refusal::DirectoryFull);
    }
    if free_count_of(sector_of(image, 0)) == 0 {
        return Err(Refusal::DiskFull);
    }
    let k = descriptor_choice(sector_of(image, 0));
    let marked = marking(layout, status);
    write_descriptor(image, k, name, marked, records_per_sector, record_length);
    mark(&mut image[0..256], usize::from(k));
    enter(image, i, name, k);
    let order = [u32::from(k), 0, u32::from(i)];
    list(changes, 0, &order);
    Ok(())
}

pub fn create(
    layout: Layout,
    image: &mut [u8],
    directory: usize,
    name: &[u8],
    status: u8,
    record_length: u8,
    records_per_sector: u8,
    changes: &mut [u32; 133],
) -> Result<(), Refusal>
    ensures meets { Meets (NamedSays (wrong_place name.now)) (create_of layout image.old directory name.now status record_length records_per_sector) (named_answered result) image.old image.new }
    ensures order { changes.new ≡ listed (create_of layout image.old directory name.now status record_length records_per_sector) changes.old }
{
    let looked = find(layout, image, directory, name)?;
    if looked.file.is_some() {
        return Err(Refusal::Present);
    }
    create_new(
        layout,
        image,
        looked.index,
        name,
        status,
        record_length,
        records_per_sector,
        changes,
    )
}
