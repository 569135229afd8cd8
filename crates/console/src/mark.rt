// What is said of an image, and the byte that says it.
ghost use Rattle.std.specs.Prelude.{◌≡◌};
ghost use Rattle.console.specs.Mark.{digit_of, answer_digit};

use rules::{Fault, Refusal};

// Whether the image is sound, and where it is not its first fault; nothing of one that was not read.
pub type Mark = Option<Result<(), Fault>>;

// The mark by what a call answers: one that refuses for another reason than a fault of the image says nothing of it.
#[tactic(auto, unfolding(crate::specs::Mark::digit_of, crate::specs::Mark::answer_digit))]
pub fn mark_by<T: Copy>(answer: Result<T, Refusal>) -> Mark
    ensures { digit_of result ≡ answer_digit answer }
{
    match answer {
        Ok(_) => Some(Ok(())),
        Err(refusal) => match refusal {
            Refusal::Unsound(fault) => Some(Err(fault)),
            _ => None,
        },
    }
}

// The byte that the line of the image begins with.
#[tactic(auto, using(crate::proofs::Marks::fault_small), unfolding(crate::specs::Mark::digit_of))]
pub fn digit_of(mark: Mark) -> u8
    ensures { result ≡ digit_of mark }
{
    match mark {
        Some(Ok(())) => b'0',
        Some(Err(fault)) => b'0' + u32::from(fault) as u8,
        None => b'-',
    }
}
