// The judges of the pages that a copy needs: the smallest refusal that applies, if one does. They only read.
ghost use Rattle.std.specs.Prelude.{◌≡◌, suc, ◌+◌, ◌-◌, ◌/◌, ◌^◌, ◌≤◌, ◌<◌};
ghost use Rattle.store.specs.Outcome.{Judges};
ghost use Rattle.store.specs.Store.{seen};
ghost use Rattle.well_formed.specs.Root.{RootReady};
ghost use Rattle.copies.specs.Needed.{PageReason, PageReady, CopyReason, CopyReady};

use address::MAXVA;
use refusal::Refusal;
use store::Store;
use unmap::IN_WINDOW;
use walk::{Bits, RootPages};

// Bit 4, which is U.
const USER: Bits = Bits {
    mask: 16,
    value: 16,
};

// Refuses the page of address a by the smallest of 6, 11, 12 and 15 that applies.
pub fn judge_page(store: &Store, root: usize, a: u64) -> Result<(), Refusal>
    requires { RootReady (seen store.now) root }
    ensures { Judges
        (PageReason (seen store.now) root a)
        (PageReady (seen store.now) root a)
        result }
{
    if a >= MAXVA {
        return Err(Refusal::TooHigh);
    }
    let e = walk::slot_word(
        store.words,
        walk::slot_of(store.words, root, (a / 4096) as usize),
    );
    if !Bits::VALID.matches(e) {
        return Err(Refusal::NotMapped);
    }
    if !USER.matches(e) {
        return Err(Refusal::NotUser);
    }
    if !IN_WINDOW.matches(e) {
        return Err(Refusal::NoPoolFrame);
    }
    Ok(())
}

// The page behind the last one that n bytes from va on need.
fn pages_end(va: u64, n: u64) -> usize
    requires { (va < 2 ^ 38) × (va + n ≤ 2 ^ 38) }
    ensures { result ≡ suc ((va + (n - 1)) / 4096) }
{
    ((va + n.saturating_sub(1)) / 4096 + 1) as usize
}

// Refuses n bytes from va on by the smallest refusal that applies.
// The numbers are those that C asks with.
#[tactic(auto, using(crate::proofs::CopyReasons::by_root))]
pub fn judge_copy(store: &Store, root: u64, va: u64, n: usize) -> Result<(), Refusal>
    ensures { Judges
        (CopyReason (seen store.now) root va n)
        (CopyReady (seen store.now) root va n)
        result }
{
    well_formed::judge_root(store, root)?;
    if va >= MAXVA {
        return Err(Refusal::TooHigh);
    }
    if n as u64 > MAXVA - va {
        return Err(Refusal::TooHigh);
    }
    let first = (va / 4096) as usize;
    let end = pages_end(va, n as u64);
    let pages = RootPages {
        root: root as usize,
        first,
        end,
    };
    if walk::count_pages(store.words, pages, Bits::VALID) < end - first {
        return Err(Refusal::NotMapped);
    }
    if walk::count_pages(store.words, pages, USER) < end - first {
        return Err(Refusal::NotUser);
    }
    if walk::count_pages(store.words, pages, IN_WINDOW) < end - first {
        return Err(Refusal::NoPoolFrame);
    }
    Ok(())
}
