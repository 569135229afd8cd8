// The free count, and a volume's summary. Each call takes any image, and gives what the rules' definition of it says: its number first, in
// the table's order, and with 0 its values and bytes. A refusal writes nothing.
#![tactic(auto)]

ghost use Rattle.std.specs.Prelude.{◌≡◌, length};
ghost use Rattle.rules.specs.Index.{numbers};
ghost use Rattle.rules.specs.Volume.{indexes, files_of};
ghost use Rattle.rules.specs.Outcome.{AmountSays, Gives};
ghost use Rattle.rules.specs.Calls.Summary.{free_count_of, summary_of, SummarySays};
ghost use Rattle.rules.specs.Refusal.{amount_answered, summary_answered};

use judge::judge;
use map::free::free_count_of;
use rules::{Layout, Refusal, Totals};
use sector::buffer::lay;
use sector::bytes::{part, sector_of};
use sector::directories::indexes_of;
use sector::numbers::numbers_of;

pub fn free_count(layout: Layout, image: &[u8]) -> Result<usize, Refusal>
    ensures { AmountSays (amount_answered result) (free_count_of layout image.now) }
{
    judge(layout, image)?;
    Ok(free_count_of(sector_of(image, 0)))
}

// The numbers of an index.
fn number_count(index: &[u8]) -> usize
    ensures { result ≡ length (numbers index.now) }
{
    numbers_of(index).count()
}

// The files of all directories together: of the root, 0, and of the entries, 1 to 3, that are there.
fn file_count(layout: Layout, image: &[u8]) -> usize
    ensures { result ≡ length (files_of image.now (indexes layout image.now)) }
{
    let mut files = 0;
    for i in indexes_of(layout, image) {
        files += number_count(sector_of(image, i));
    }
    files
}

pub fn summary(layout: Layout, image: &[u8], name: &mut [u8; 10]) -> Result<Totals, Refusal>
    ensures { Gives (SummarySays layout image.now) (summary_of layout image.now) (summary_answered result) name.old name.new }
{
    judge(layout, image)?;
    let sector0 = sector_of(image, 0);
    lay(name, 0, part(sector0, 0, 10));
    Ok(Totals {
        sectors: image.len() / 256,
        files: file_count(layout, image),
        free: free_count_of(sector0),
    })
}
