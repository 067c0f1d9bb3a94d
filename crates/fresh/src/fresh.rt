// Fresh frames for pages: the judge of a range, and the taking of the lowest free frame for a page.
ghost use Rattle.std.specs.Prelude.{◌+◌, ◌-◌, ◌^◌, ◌≤◌, ◌<◌, length};
ghost use Rattle.store.specs.Count.{lowest};
ghost use Rattle.store.specs.Outcome.{Judges};
ghost use Rattle.store.specs.Store.{seen};
ghost use Rattle.fresh.specs.Fresh.{FreshReason, FreshReady, FrameFits, FrameEntered, FrameTaken};

use refusal::Refusal;
use store::Store;
use walk::{Bits, RootPages};

// Refuses fresh frames for these pages where one is mapped, or frames or tables are too few.
pub fn judge_fresh(store: &Store, pages: RootPages) -> Result<(), Refusal>
    ensures { Judges
        (FreshReason (seen store.now) pages.root pages.first (pages.end - pages.first))
        (FreshReady (seen store.now) pages.root pages.first (pages.end - pages.first))
        result }
{
    if walk::count_pages(store.words, pages, Bits::VALID) != 0 {
        return Err(Refusal::MappedAlready);
    }
    if !store::enough_free(store.fmarks, pages.end - pages.first) {
        return Err(Refusal::TooFewFrames);
    }
    if !store::enough_free(store.tmarks, walk::missing_tables(store.words, pages)) {
        return Err(Refusal::TooFewTables);
    }
    Ok(())
}

// Slot m and the lowest free frame get each other, with the flags q. No frame below from is free. Frames are numbers in the
// marks and in entries, which the machine and C read; of the slices only those that change are lent.
#[tactic(auto, using(store::proofs::Free::lowest_le))]
fn take_frame(words: &mut [u64], fmarks: &mut [u32], m: usize, q: u64, from: usize) -> usize
    requires { (m < 2 ^ 32) × (q < 1024) × (length fmarks.old ≤ 4096) × (from ≤ lowest fmarks.old) }
    ensures { FrameTaken words.old fmarks.old m q result words.new fmarks.new }
{
    let f = store::lowest_from(fmarks, from);
    enter::put_slot(words, m, 1024 * (0x11_0000 + f as u64) + q);
    enter::put_mark(fmarks, f, m as u32);
    f
}

// The page's tables are hung where they are missing, and it gets the lowest free frame; its bytes are still to be written.
pub fn enter_frame(
    words: &mut [u64],
    tmarks: &mut [u32],
    fmarks: &mut [u32],
    root: usize,
    page: usize,
    q: u64,
    from: usize,
) -> usize
    requires { FrameFits words.old tmarks.old fmarks.old root page from × (q < 1024) }
    ensures { FrameEntered
        words.old tmarks.old fmarks.old root page q result
        words.new tmarks.new fmarks.new }
{
    enter::hang_tables(words, tmarks, root, page);
    let m = walk::slot_of(words, root, page);
    take_frame(words, fmarks, m, q, from)
}
