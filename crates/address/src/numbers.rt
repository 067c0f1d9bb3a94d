// The work on numbers, which both kinds of address share.
ghost use Rattle.std.specs.Prelude.{◌≡◌, ◌+◌};
ghost use Rattle.address.specs.Page.{down, up};
ghost use Rattle.address.specs.Answer.{within64, at_least0, number_said};

use super::PGSIZE;
use refusal::Refusal;

const OFFSET: u64 = PGSIZE - 1;

// A sum and a difference that leave 64 bits are refused: the library's two methods, which one function of both would only choose between.
#[tactic(auto, using(crate::proofs::Answers::summed))]
pub fn sum(a: u64, b: u64) -> Result<u64, Refusal>
    ensures { number_said result ≡ within64 (a + b) }
{
    a.checked_add(b).ok_or(Refusal::TooHigh)
}

#[tactic(auto, using(crate::proofs::Answers::lessened))]
pub fn difference(a: u64, b: u64) -> Result<u64, Refusal>
    ensures { number_said result ≡ at_least0 a b }
{
    a.checked_sub(b).ok_or(Refusal::TooHigh)
}

pub fn round_down(a: u64) -> u64
    ensures { result ≡ down a }
{
    a & !OFFSET
}

// The law of masks proves a body that masks the sum itself, so that an edit of the mask is refused for the mask.
#[tactic(auto, using(crate::proofs::Answers::then_down, crate::proofs::Pages::down_mask), unfolding(crate::specs::Answer::said))]
pub fn round_up(a: u64) -> Result<u64, Refusal>
    ensures { number_said result ≡ within64 (up a) }
{
    Ok(round_down(sum(a, OFFSET)?))
}
