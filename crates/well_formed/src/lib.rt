// The check that a store is well formed: yes exactly for W1 to W5. Every call on a store runs it first.
// Pool frames are counted: given W5 and the words' shapes, every level-0 word of the held window has its pool frame's mark
// exactly where there are as many such words as frames in use.
#![tactic(auto)]

mod frames;
mod leaves;
mod pointers;
mod scan;
mod tables;
mod words;

ghost use Rattle.store.specs.Outcome.{Judges};
ghost use Rattle.store.specs.Says.{Says};
ghost use Rattle.store.specs.Store.{seen, Sized};
ghost use Rattle.store.specs.WellFormed.{WellFormed};
ghost use Rattle.well_formed.specs.Check.{Check, Judged};
ghost use Rattle.well_formed.specs.Root.{RootReason, RootReady};

use refusal::Refusal;
pub use scan::zeros;
use store::Store;

// Whether a store of the right sizes is well formed.
fn formed(store: &Store) -> bool
    requires { Sized (seen store.now) }
    ensures { Says result (WellFormed (seen store.now)) }
{
    let Some(held) = words::words_ok(store.words, store.tmarks) else {
        return false;
    };
    if !tables::tables_ok(store.words, store.tmarks) {
        return false;
    }
    let used = store.fmarks.len() - store::count_free(store.fmarks);
    held == used && (used == 0 || frames::frames_ok(store.words, store.tmarks, store.fmarks))
}

// Refuses a store of the wrong sizes, or one that is not well formed.
pub fn judge_store(store: &Store) -> Result<(), Refusal>
    ensures { Judged (seen store.now) result }
{
    if !store.sized() {
        return Err(Refusal::Sizes);
    }
    if !formed(store) {
        return Err(Refusal::NotWellFormed);
    }
    Ok(())
}

// Refuses such a store, and a root named in it that is none: a root's mark is 1, in the marks that the caller lends.
#[tactic(auto, using(crate::proofs::RootReasons::not_judged))]
pub fn judge_root(store: &Store, root: u64) -> Result<(), Refusal>
    ensures { Judges (RootReason (seen store.now) root) (RootReady (seen store.now) root) result }
{
    judge_store(store)?;
    if store::mark_at(store.tmarks, root as usize) != 1 {
        return Err(Refusal::NoRoot);
    }
    Ok(())
}

// Says 1 for a well-formed store and 0 for any other; refused only for its sizes. The value is a number since C reads it, as
// `Check` says; `judge_store` refuses instead.
pub fn check(store: &Store) -> Result<u64, Refusal>
    ensures { Check (seen store.now) result }
{
    if !store.sized() {
        return Err(Refusal::Sizes);
    }
    if !formed(store) {
        return Ok(0);
    }
    Ok(1)
}
