// New pages at the end, after `uvm_alloc` of page_table.rs: judged whole, then done.
ghost use Rattle.std.specs.Prelude.{◌≡◌};
ghost use Rattle.store.specs.Outcome.{Judges};
ghost use Rattle.store.specs.Store.{store_of, seen};
ghost use Rattle.fresh.specs.Fresh.{CanFresh, fresh_pages};
ghost use Rattle.grow.specs.Grow.{zeroed, GrowReason, GrowReady, Grow};

use refusal::Refusal;
use store::Store;
use walk::RootPages;

// Refuses what `judge_sizes` of shrink refuses, and the new pages where `judge_fresh` does. No twin of `judge_shrink`, which asks another
// judge of the pages between the sizes the other way round.
#[tactic(auto, using(crate::proofs::GrowReasons::by_sizes))]
fn judge_grow(store: &Store, root: u64, old: u64, new: u64) -> Result<(), Refusal>
    ensures { Judges
        (GrowReason (seen store.now) root old new)
        (GrowReady (seen store.now) root old new)
        result }
{
    shrink::judge_sizes(store, root, old, new)?;
    let first = shrink::pages_to(old);
    let end = shrink::pages_to(new);
    if end <= first {
        return Ok(());
    }
    let pages = RootPages {
        root: root as usize,
        first,
        end,
    };
    fresh::judge_fresh(store, pages)
}

// n pages from first on get frames of zeros with the flags 31. The search for a free frame goes on behind the last one taken. No twin of
// child's `copy_pages`, whose frames get the flags and bytes of others.
fn grow_pages(
    words: &mut [u64],
    tmarks: &mut [u32],
    bytes: &mut [u8],
    fmarks: &mut [u32],
    root: usize,
    first: usize,
    n: usize,
)
    requires { CanFresh (store_of words.old tmarks.old bytes.old fmarks.old) root first n }
    ensures { store_of words.new tmarks.new bytes.new fmarks.new
        ≡ fresh_pages (store_of words.old tmarks.old bytes.old fmarks.old) root first n (λ _. 31) (λ _. zeroed) }
{
    let mut from = 0;
    for i in 0..n {
        let f = fresh::enter_frame(words, tmarks, fmarks, root, first + i, 31, from);
        let to = 4096 * f;
        bytes[to..to + 4096].fill(0);
        from = f + 1;
    }
}

// The pages that new bytes take and old bytes do not get fresh frames of zeros. The slices are C's (docs/DECISIONS.md, 42).
pub fn uvm_alloc(
    words: &mut [u64],
    tmarks: &mut [u32],
    bytes: &mut [u8],
    fmarks: &mut [u32],
    root: u64,
    old: u64,
    new: u64,
) -> Result<u64, Refusal>
    ensures { Grow
        (store_of words.old tmarks.old bytes.old fmarks.old) root old new result
        (store_of words.new tmarks.new bytes.new fmarks.new) }
{
    let store = Store {
        words,
        tmarks,
        bytes,
        fmarks,
    };
    judge_grow(&store, root, old, new)?;
    let first = shrink::pages_to(old);
    let n = shrink::pages_to(new).saturating_sub(first);
    grow_pages(words, tmarks, bytes, fmarks, root as usize, first, n);
    Ok(old.max(new))
}
