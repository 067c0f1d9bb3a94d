// The tables of a root are given back, the tables below a table first: judged whole, then done.
ghost use Rattle.std.specs.Prelude.{◌≡◌, ◌*◌, ◌≤◌, ◌<◌, length, set};
ghost use Rattle.std.specs.Option.{SomeIff};
ghost use Rattle.store.specs.Outcome.{Judges};
ghost use Rattle.store.specs.Store.{frame_no, store_of, seen};
ghost use Rattle.store.specs.Walk.{table_of};
ghost use Rattle.release.specs.Free.{FreeReason, FreeReady, Free};
ghost use Rattle.release.specs.FreeTree.{trees, zeroed, free_tree};

use refusal::Refusal;
use store::Store;
use walk::{Bits, RootPages};

const PAGES: usize = 1 << 26;

// Why a root may not be freed: the smallest reason.
#[tactic(auto, using(crate::proofs::FreeReasons::by_root))]
fn judge_free(store: &Store, root: u64) -> Result<(), Refusal>
    ensures { Judges
        (FreeReason (seen store.now) root)
        (FreeReady (seen store.now) root)
        result }
{
    well_formed::judge_root(store, root)?;
    let pages = RootPages {
        root: root as usize,
        first: 0,
        end: PAGES,
    };
    if walk::count_pages(store.words, pages, Bits::VALID) != 0 {
        return Err(Refusal::PageLeft);
    }
    Ok(())
}

// Table t becomes zero and free. Here and below only words and marks are lent, so the contract alone says that bytes stay.
fn wipe_table(words: &mut [u64], tmarks: &mut [u32], t: usize)
    requires { (t < length tmarks.old) × (length words.old ≡ 512 * length tmarks.old) }
    ensures { (words.new ≡ zeroed words.old t) × (tmarks.new ≡ set tmarks.old t 0) }
{
    words[512 * t..512 * t + 512].fill(0);
    tmarks[t] = 0;
}

// The table that word x names, if it is one of the first n.
fn child_of(x: u64, n: usize) -> Option<usize>
    ensures { SomeIff result ((0x10_0000 ≤ frame_no x) × (table_of x < n)) (table_of x) }
{
    let table = ((x / 1024) as usize).checked_sub(0x10_0000)?;
    (table < n).then_some(table)
}

// Gives back the tables below table t, and then t, and answers how many. The level falls at each call: it is a number,
// and so is a table, since entries name tables by their numbers.
pub fn free_table(words: &mut [u64], tmarks: &mut [u32], t: usize, level: usize) -> usize
    requires { (t < length tmarks.old) × (length words.old ≡ 512 * length tmarks.old) × (level ≤ 2) }
    ensures { trees words.new tmarks.new result ≡ free_tree level t words.old tmarks.old }
{
    if level == 0 {
        wipe_table(words, tmarks, t);
        return 1;
    }
    let mut n = 0;
    let mut e = 0;
    // Each turn takes a run of entries, whose length only the turn finds: no range or iterator has that step.
    while e < 512 {
        let w = 512 * t + e;
        let run = walk::run_of(words, w + 2);
        if let Some(child) = child_of(words[w], tmarks.len()) {
            n += free_table(words, tmarks, child, level - 1);
        }
        e += run;
    }
    wipe_table(words, tmarks, t);
    n + 1
}

// Gives back every table of a root without pages, and answers how many. Only some slices are lent for writing (docs/DECISIONS.md, 42).
pub fn free(
    words: &mut [u64],
    tmarks: &mut [u32],
    bytes: &[u8],
    fmarks: &[u32],
    root: u64,
) -> Result<u64, Refusal>
    ensures { Free
        (store_of words.old tmarks.old bytes.now fmarks.now) root result
        (store_of words.new tmarks.new bytes.now fmarks.now) }
{
    let store = Store {
        words,
        tmarks,
        bytes,
        fmarks,
    };
    judge_free(&store, root)?;
    Ok(free_table(words, tmarks, root as usize, 2) as u64)
}
