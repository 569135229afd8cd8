// A catalogue entry: the 28 header bytes and the row of the file at a place of a directory. The call takes any image and any arguments, and
// gives what the rules' definition of it says: its number first, in the table's order, and with 0 its row and bytes. A refusal writes nothing.
#![tactic(auto)]

ghost use Rattle.std.specs.Prelude.{length};
ghost use Rattle.rules.specs.Outcome.{Gives};
ghost use Rattle.rules.specs.Calls.Entry.{entry_of, entry_row, EntrySays};
ghost use Rattle.rules.specs.Refusal.{entry_answered};

mod row;

use descriptor::fields::descriptor_of;
use judge::judge;
use row::row_of;
use rules::{Layout, Refusal, Row};
use sector::buffer::lay;
use sector::bytes::{part, sector_of, word};
use sector::directories::index_at;

pub fn entry(
    layout: Layout,
    image: &[u8],
    directory: usize,
    place: usize,
    header: &mut [u8],
) -> Result<Row, Refusal>
    ensures { Gives (EntrySays (entry_row layout image.now directory place (length header.old))) (entry_of layout image.now directory place (length header.old)) (entry_answered result) header.old header.new }
{
    judge(layout, image)?;
    let i = index_at(layout, image, directory).ok_or(Refusal::Absent)?;
    if place >= 128 {
        return Err(Refusal::Absent);
    }
    let k = word(sector_of(image, i), 2 * place);
    if k == 0 {
        return Err(Refusal::Absent);
    }
    if header.len() < 28 {
        return Err(Refusal::Argument);
    }
    let descriptor = descriptor_of(image, k);
    lay(header, 0, part(descriptor.bytes, 0, 28));
    Ok(row_of(&descriptor))
}
