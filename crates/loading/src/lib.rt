// A load: the bytes of a program. The call takes any image and any arguments, and gives what the rules' definition of it says: its number
// first, in the table's order, and with 0 its bytes. A refusal writes nothing.
#![tactic(auto)]

ghost use Rattle.std.specs.Prelude.{◌≡◌, None, map, length, take};
ghost use Rattle.rules.specs.Name.{wrong_place};
ghost use Rattle.rules.specs.Bytes.{splice};
ghost use Rattle.rules.specs.Sectors.{sector_of, joined};
ghost use Rattle.rules.specs.Chain.{places};
ghost use Rattle.rules.specs.Calls.Load.{loading, load_of};
ghost use Rattle.rules.specs.Outcome.{NamedAmountSays, Gives};
ghost use Rattle.rules.specs.Refusal.{load_answered};

use descriptor::chain::places_of;
use descriptor::fields::descriptor_of;
use opening::find;
use rules::{Kind, Layout, Refusal};
use sector::buffer::lay;
use sector::bytes::{part, sector_of};

// The sectors of a chain one after another, cut at the length.
fn join(image: &[u8], chain: &[u8], size: usize, out: &mut [u8])
    ensures { out.new ≡ splice out.old 0 (take size (joined (map (sector_of image.now) (places chain.now)))) }
{
    let mut at = 0;
    for place in places_of(chain) {
        let piece = part(sector_of(image, place), 0, size - at);
        lay(out, at, piece);
        at += piece.len();
    }
}

// Of the file whose descriptor is in sector k.
fn load_at(image: &[u8], k: u16, out: &mut [u8]) -> Result<usize, Refusal>
    ensures { Gives (NamedAmountSays None) (loading image.now (length out.old) k) (load_answered result) out.old out.new }
{
    let descriptor = descriptor_of(image, k);
    let Kind::Program { length } = descriptor.kind() else {
        return Err(Refusal::OtherKind);
    };
    if out.len() < length {
        return Err(Refusal::Argument);
    }
    join(image, descriptor.chain(), length, out);
    Ok(length)
}

pub fn load(
    layout: Layout,
    image: &[u8],
    directory: usize,
    name: &[u8],
    out: &mut [u8],
) -> Result<usize, Refusal>
    ensures { Gives (NamedAmountSays (wrong_place name.now)) (load_of layout image.now directory name.now (length out.old)) (load_answered result) out.old out.new }
{
    let looked = find(layout, image, directory, name)?;
    let file = looked.file.ok_or(Refusal::Absent)?;
    load_at(image, file.sector, out)
}
