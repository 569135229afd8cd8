// How layouts and answers cross to C, which has no enums and no bools: as numbers, and values behind pointers.
ghost use Rattle.std.specs.Prelude.{◌≡◌, ℕ, Option, Err};
ghost use Rattle.rules.specs.Outcome.{Report, AnswerSays, AmountSays, NamedSays, NamedAmountSays, RenameSays};
ghost use Rattle.rules.specs.Refusal.{refusal_number, refused, judged, answered, amount_answered, named_answered, load_answered, rename_answered};
ghost use Rattle.pnoelithe.specs.Crossing.{layout_of, kind_number, place_behind, first_wrong, which_behind, AmountCrosses};

use rules::{Fault, Kind, Layout, Refusal, RenameRefusal};

// The layout that its bits say.
pub(crate) fn layout_of(bits: u32) -> Layout
    ensures { result ≡ layout_of bits }
{
    Layout {
        marks: bits % 2 == 1,
        directories: bits / 2 % 2 == 1,
    }
}

// The number of an image that was judged.
pub(crate) fn judged_number(verdict: Result<(), Fault>) -> u32
    ensures { result ≡ judged verdict }
{
    match verdict {
        Ok(()) => 0,
        Err(fault) => u32::from(fault),
    }
}

// The number that the answer says, and of any refusal that of the table.
pub(crate) fn answer_number(answer: Result<(), Refusal>) -> u32
    ensures { ((number : ℕ) → AnswerSays (answered answer) number → result ≡ number) × ((refusal : Refusal) → answer ≡ Err refusal → result ≡ refusal_number refusal) }
{
    match answer {
        Ok(()) => 0,
        Err(refusal) => u32::from(refusal),
    }
}

// And its value behind `to`.
pub(crate) fn amount_number(amount: Result<usize, Refusal>, to: &mut usize) -> u32
    ensures { ((report : Report) → AmountSays (amount_answered amount) report → AmountCrosses report result to.old to.new) × ((refusal : Refusal) → amount ≡ Err refusal → (result ≡ refusal_number refusal) × (to.new ≡ to.old)) }
{
    match amount {
        Ok(value) => {
            *to = value;
            0
        }
        Err(refusal) => u32::from(refusal),
    }
}

// The number of a refusal of a call that takes a name: with 7 the place goes behind `wrong`.
fn named_refusal(refusal: Refusal, wrong: &mut usize) -> u32
    ensures { (result ≡ refusal_number refusal) × (wrong.new ≡ refused (λ place. place) (λ number. wrong.old) refusal) }
{
    if let Refusal::Misnamed(place) = refusal {
        *wrong = place;
    }
    u32::from(refusal)
}

pub(crate) fn named_number(answer: Result<(), Refusal>, wrong: &mut usize) -> u32
    ensures { (misnamed : Option ℕ) (number : ℕ) → NamedSays misnamed (named_answered answer) number → (result ≡ number) × (wrong.new ≡ place_behind result misnamed wrong.old) }
{
    match answer {
        Ok(()) => 0,
        Err(refusal) => named_refusal(refusal, wrong), // there is no value
    }
}

pub(crate) fn named_amount_number(
    amount: Result<usize, Refusal>,
    size: &mut usize,
    wrong: &mut usize,
) -> u32
    ensures { (misnamed : Option ℕ) (report : Report) → NamedAmountSays misnamed (load_answered amount) report → AmountCrosses report result size.old size.new × (wrong.new ≡ place_behind result misnamed wrong.old) }
{
    match amount {
        Ok(value) => {
            *size = value;
            0
        }
        Err(refusal) => named_refusal(refusal, wrong),
    }
}

// Of a rename: and behind `which` the name that is meant, 0 the old one, 1 the new one.
pub(crate) fn rename_number(
    answer: Result<(), RenameRefusal>,
    which: &mut usize,
    wrong: &mut usize,
) -> u32
    ensures { (old new : Option ℕ) (number : ℕ) → RenameSays old new (rename_answered answer) number → (result ≡ number) × ((which.new ≡ which_behind result old which.old) × (wrong.new ≡ place_behind result (first_wrong old new) wrong.old)) }
{
    let Err(refusal) = answer else {
        return 0;
    };
    match refusal {
        RenameRefusal::OldMisnamed(place) => {
            *which = 0;
            *wrong = place;
            7
        }
        RenameRefusal::NewMisnamed(place) => {
            *which = 1;
            *wrong = place;
            7
        }
        RenameRefusal::Other(refusal) => u32::from(refusal),
    }
}

pub(crate) fn kind_number(kind: Kind) -> usize
    ensures { result ≡ kind_number kind }
{
    match kind {
        Kind::Program { .. } => 0,
        Kind::Fixed { internal, .. } => {
            if internal {
                return 3;
            }
            1
        }
        Kind::Variable { internal, .. } => {
            if internal {
                return 4;
            }
            2
        }
    }
}
