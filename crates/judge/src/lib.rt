// The judge: the number 0 to 6 of any image. Each test answers what the rules' definition of the same name says; `judge` puts
// them in the table's order, and a test may ask for what those before it have found.
#![tactic(auto)]

ghost use Rattle.std.specs.Prelude.{◌≡◌};
ghost use Rattle.rules.specs.Refusal.{judged};
ghost use Rattle.rules.specs.Verdict.{verdict};

pub mod directories;
pub mod files;
pub mod holders;
mod marks;
pub mod system;

use directories::{entries_rule, indexes_rule};
use files::catalogues_rule;
use holders::claim_holders;
use map::laid::lay_map;
use rules::{Fault, Layout};
use sector::bytes::{part, same, sector_in};
use system::label_rule;

// The first fault of an image by the table, or that it is a sound volume.
pub fn judge(layout: Layout, image: &[u8]) -> Result<(), Fault>
    ensures { judged result ≡ verdict layout image.now }
{
    if image.len() % 256 != 0 {
        return Err(Fault::Length);
    }
    let n = image.len() / 256;
    if n < 3 {
        return Err(Fault::Length);
    }
    if n > 1600 {
        return Err(Fault::Length);
    }
    let sector0 = sector_in(image, 0);
    if !label_rule(n, sector0) {
        return Err(Fault::Label);
    }
    if !entries_rule(layout, n, sector0) {
        return Err(Fault::Index);
    }
    if !indexes_rule(layout, n, image) {
        return Err(Fault::Index);
    }
    if !catalogues_rule(layout, n, image) {
        return Err(Fault::Descriptor);
    }
    let mut marks = [0u8; 200];
    lay_map(&mut marks, n, 1);
    if claim_holders(layout, image, &mut marks) {
        return Err(Fault::Holders);
    }
    if !same(part(sector0, 56, 200), &marks) {
        return Err(Fault::Map);
    }
    Ok(())
}
