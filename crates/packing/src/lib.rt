// Packing: the one laid down form of a volume. The call takes any source and any target and answers with its number. With 0 it writes
// every byte of the target, each part in one pass; a refusal writes nothing. The source is only read.
#![tactic(auto)]

ghost use Rattle.std.specs.Prelude.{◌≡◌, length, replicate};
ghost use Rattle.rules.specs.Sectors.{sector_count};
ghost use Rattle.rules.specs.Volume.{catalogues};
ghost use Rattle.rules.specs.Sound.{Sound};
ghost use Rattle.rules.specs.Outcome.{AnswerSays};
ghost use Rattle.rules.specs.Refusal.{answered};
ghost use Rattle.rules.specs.Calls.Pack.{label_area, packed, pack_number, after_pack};

mod files;
mod system;
mod walk;

use files::{lay_data, lay_descriptors};
use judge::judge;
use map::laid::lay_map;
use rules::{Layout, Refusal};
use system::{lay_indexes, lay_label};

// The free sectors, whatever the source has in them: every byte is E5.
fn fill_free(rest: &mut [u8])
    ensures { rest.new ≡ replicate (length rest.old) 229 }
{
    rest.fill(0xE5);
}

// The parts of the packed form: those of sector 0 are the first and the last, since the map needs the sectors that all others take.
fn write_packed(layout: Layout, source: &[u8], target: &mut [u8])
    requires { Sound layout source.now × (length target.old ≡ length source.now) }
    ensures { target.new ≡ packed layout (sector_count source.now) (label_area layout source.now) (catalogues layout source.now) }
{
    let first = lay_label(layout, source, target);
    let behind = lay_indexes(layout, source, target, first);
    let used = usize::from(lay_descriptors(layout, source, target, first, behind));
    lay_data(layout, source, target, behind);
    fill_free(&mut target[256 * used..]);
    lay_map(&mut target[56..256], source.len() / 256, used);
}

// Writes the source's packed form over the target: 1 to 6 of the source, then 15 for a target of another length.
pub fn pack(layout: Layout, source: &[u8], target: &mut [u8]) -> Result<(), Refusal>
    ensures answer_says { AnswerSays (answered result) (pack_number layout source.now target.old) }
    ensures target_after { target.new ≡ after_pack layout source.now target.old }
{
    judge(layout, source)?;
    if target.len() != source.len() {
        return Err(Refusal::Argument);
    }
    write_packed(layout, source, target);
    Ok(())
}
