// Giving up the pages at the end, after `uvm_dealloc` of page_table.rs: judged whole, then done.
ghost use Rattle.store.specs.Outcome.{Judges};
ghost use Rattle.store.specs.Store.{store_of, seen};
ghost use Rattle.shrink.specs.Shrink.{ShrinkReason, ShrinkReady, Shrink};

use super::sizes;
use refusal::Refusal;
use store::Store;
use walk::RootPages;

// Refuses what `judge_sizes` refuses, and the pages that leave where `judge_leave` does, freeing, which is its `true`.
#[tactic(auto, using(crate::proofs::ShrinkReasons::by_sizes))]
fn judge_shrink(store: &Store, root: u64, old: u64, new: u64) -> Result<(), Refusal>
    ensures { Judges
        (ShrinkReason (seen store.now) root old new)
        (ShrinkReady (seen store.now) root old new)
        result }
{
    sizes::judge_sizes(store, root, old, new)?;
    let first = sizes::pages_to(new);
    let end = sizes::pages_to(old);
    if end <= first {
        return Ok(());
    }
    let pages = RootPages {
        root: root as usize,
        first,
        end,
    };
    unmap::judge_leave(store, pages, true)
}

// The pages that old bytes take and new bytes do not leave the root, and their pool frames are given back. Only some
// slices are lent for writing (docs/DECISIONS.md, 42). No twin of `uvm_alloc`, whose work needs all four.
pub fn uvm_dealloc(
    words: &mut [u64],
    tmarks: &[u32],
    bytes: &[u8],
    fmarks: &mut [u32],
    root: u64,
    old: u64,
    new: u64,
) -> Result<u64, Refusal>
    ensures { Shrink
        (store_of words.old tmarks.now bytes.now fmarks.old) root old new result
        (store_of words.new tmarks.now bytes.now fmarks.new) }
{
    let store = Store {
        words,
        tmarks,
        bytes,
        fmarks,
    };
    judge_shrink(&store, root, old, new)?;
    let first = sizes::pages_to(new);
    let n = sizes::pages_to(old).saturating_sub(first);
    unmap::leave_pages(words, tmarks, bytes, fmarks, root as usize, first, n, true);
    Ok(old.min(new))
}
