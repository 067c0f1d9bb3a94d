// Sizes in bytes, the pages that they take, and the judge of two of them.
ghost use Rattle.std.specs.Prelude.{◌≡◌, ◌^◌, ◌≤◌};
ghost use Rattle.store.specs.Outcome.{Judges};
ghost use Rattle.store.specs.Store.{seen};
ghost use Rattle.shrink.specs.Sizes.{pages_to, SizeReason, SizeReady};

use address::MAXVA;
use refusal::Refusal;
use store::Store;

// Refuses what `judge_root` refuses, and a size above 2^38. Which size is the old one only its callers know.
#[tactic(auto, using(crate::proofs::SizeReasons::by_root))]
pub fn judge_sizes(store: &Store, root: u64, old: u64, new: u64) -> Result<(), Refusal>
    ensures { Judges
        (SizeReason (seen store.now) root old new)
        (SizeReady (seen store.now) root old new)
        result }
{
    well_formed::judge_root(store, root)?;
    if old > MAXVA || new > MAXVA {
        return Err(Refusal::TooHigh);
    }
    Ok(())
}

// How many pages size bytes take, rounded up.
pub fn pages_to(size: u64) -> usize
    requires { size ≤ 2 ^ 38 }
    ensures { result ≡ pages_to size }
{
    ((size + 4095) / 4096) as usize
}
