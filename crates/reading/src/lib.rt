// A sector read: one sector of a file, by its offset in the file. The call takes any image and any arguments, and gives what the rules'
// definition of it says: its number first, in the table's order, and with 0 its bytes. A refusal writes nothing.
#![tactic(auto)]

ghost use Rattle.std.specs.Prelude.{None, length};
ghost use Rattle.rules.specs.Name.{wrong_place};
ghost use Rattle.rules.specs.Outcome.{Gives, ReadSays};
ghost use Rattle.rules.specs.Calls.Read.{reading, read_of};
ghost use Rattle.rules.specs.Refusal.{named_answered};

use descriptor::chain::place_at;
use descriptor::fields::descriptor_of;
use opening::find;
use rules::{Layout, Refusal};
use sector::buffer::lay;
use sector::bytes::sector_of;

// Of the file whose descriptor is in sector k.
fn read_at(image: &[u8], k: u16, offset: usize, out: &mut [u8]) -> Result<(), Refusal>
    ensures { Gives (ReadSays None) (reading image.now offset (length out.old) k) (named_answered result) out.old out.new }
{
    let descriptor = descriptor_of(image, k);
    if offset >= usize::from(descriptor.sectors()) {
        return Err(Refusal::Argument);
    }
    if out.len() < 256 {
        return Err(Refusal::Argument);
    }
    let place = place_at(descriptor.chain(), offset).unwrap_or(0);
    lay(out, 0, sector_of(image, place));
    Ok(())
}

pub fn read(
    layout: Layout,
    image: &[u8],
    directory: usize,
    name: &[u8],
    offset: usize,
    out: &mut [u8],
) -> Result<(), Refusal>
    ensures { Gives (ReadSays (wrong_place name.now)) (read_of layout image.now directory name.now offset (length out.old)) (named_answered result) out.old out.new }
{
    let looked = find(layout, image, directory, name)?;
    let file = looked.file.ok_or(Refusal::Absent)?;
    read_at(image, file.sector, offset, out)
}
