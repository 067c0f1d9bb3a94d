// The judges of unmapping: each refuses with the smallest reason that applies, or not. They only read.
ghost use Rattle.std.specs.Prelude.{◌-◌, ◌^◌, ◌≤◌, ◌<◌};
ghost use Rattle.store.specs.Outcome.{Judges};
ghost use Rattle.store.specs.Says.{Says};
ghost use Rattle.store.specs.Store.{seen};
ghost use Rattle.well_formed.specs.Root.{RootReady};
ghost use Rattle.unmap.specs.Leave.{MeetsPool, LeaveReason, LeaveReady};
ghost use Rattle.unmap.specs.Unmap.{TooHigh, UnmapReason, UnmapReady};

use address::VirtualAddress;
use refusal::Refusal;
use store::Store;
use walk::{Bits, RootPages};

const PAGES: u64 = 1 << 26;

// A word whose bits from 27 on are 8 names a frame of the held window.
pub const IN_WINDOW: Bits = Bits {
    mask: 0xFFFF_FFFF_F800_0000,
    value: 0x4000_0000,
};

// All flags of a word are V alone.
const V_ALONE: Bits = Bits {
    mask: 1023,
    value: 1,
};

// Whether, without freeing, one of these pages has a pool frame.
// `freeing` is C's flag and document 01's word: it picks no function, here or below, but says whether a pool frame is a reason.
fn meets_pool(store: &Store, pages: RootPages, freeing: bool) -> bool
    requires { RootReady (seen store.now) pages.root }
    ensures { Says result
        (MeetsPool (seen store.now) pages.root pages.first (pages.end - pages.first) freeing) }
{
    !freeing && walk::count_pages(store.words, pages, IN_WINDOW) != 0
}

// Refuses these pages where one has a pool frame and freeing is off, is not mapped or has only V.
pub fn judge_leave(store: &Store, pages: RootPages, freeing: bool) -> Result<(), Refusal>
    requires { RootReady (seen store.now) pages.root }
    ensures { Judges
        (LeaveReason (seen store.now) pages.root pages.first (pages.end - pages.first) freeing)
        (LeaveReady (seen store.now) pages.root pages.first (pages.end - pages.first) freeing)
        result }
{
    if meets_pool(store, pages, freeing) {
        return Err(Refusal::HeldWindow);
    }
    if walk::count_pages(store.words, pages, Bits::VALID) < pages.end - pages.first {
        return Err(Refusal::NotMapped);
    }
    if walk::count_pages(store.words, pages, V_ALONE) != 0 {
        return Err(Refusal::OnlyValid);
    }
    Ok(())
}

// Whether one of n pages from first on lies at or above 2^38, so no `RootPages` can be made of them yet.
fn too_high(first: u64, n: u64) -> bool
    requires { first < 2 ^ 52 }
    ensures { Says result (TooHigh first n) }
{
    n != 0 && (n > PAGES || first + n > PAGES)
}

// Refuses what `judge_root` refuses, pages that lie too high, an address that is not aligned, and the pages where `judge_leave` does.
// The numbers are those that C asks with.
#[tactic(auto, using(crate::proofs::UnmapReasons::by_root))]
pub fn judge_unmap(
    store: &Store,
    root: u64,
    va: VirtualAddress,
    n: u64,
    freeing: bool,
) -> Result<(), Refusal>
    ensures { Judges
        (UnmapReason (seen store.now) root va.0 n freeing)
        (UnmapReady (seen store.now) root va.0 n freeing)
        result }
{
    well_formed::judge_root(store, root)?;
    let first = va.0 / 4096;
    if too_high(first, n) {
        return Err(Refusal::TooHigh);
    }
    if va.0 % 4096 != 0 {
        return Err(Refusal::NotAligned);
    }
    if n == 0 {
        return Ok(());
    }
    let pages = RootPages {
        root: root as usize,
        first: first as usize,
        end: (first + n) as usize,
    };
    judge_leave(store, pages, freeing)
}
