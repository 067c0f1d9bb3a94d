// The judge of map: the smallest refusal that applies. It only reads.
ghost use Rattle.store.specs.Outcome.{Judges};
ghost use Rattle.store.specs.Store.{seen};
ghost use Rattle.map.specs.Numbers.{NumberReason, NumbersReady};
ghost use Rattle.map.specs.Reasons.{MapReason, MapReady};

use address::{MAXVA, PhysicalAddress, VirtualAddress};
use refusal::Refusal;
use store::Store;
use walk::{Bits, RootPages};

const PAGES: u64 = 1 << 26;

const FRAMES: u64 = 1 << 44;

const WINDOW: u64 = 0x10_0000;

const WINDOW_END: u64 = 0x12_0000;

// Why the numbers alone are refused, which is 6, 8, 9 or 10. Where no page is asked for there is no frame either.
// Two addresses, a size and permissions are what C asks with, and come together here and in the two calls of it.
fn judge_numbers(
    va: VirtualAddress,
    pa: PhysicalAddress,
    size: u64,
    perm: u64,
) -> Result<(), Refusal>
    ensures { Judges (NumberReason va.0 pa.0 size perm) (NumbersReady va.0 pa.0 size perm) result }
{
    let range = rounding::page_range(va, size);
    let first = range.first;
    let end = range.end;
    if size > MAXVA || (first < end && end > PAGES) {
        return Err(Refusal::TooHigh);
    }
    if perm > 1023 {
        return Err(Refusal::Permissions);
    }
    if end <= first {
        return Ok(());
    }
    let frame = pa.0 / 4096;
    let past = frame + (end - first);
    if past > FRAMES {
        return Err(Refusal::FrameTooHigh);
    }
    if past > WINDOW && frame < WINDOW_END {
        return Err(Refusal::HeldWindow);
    }
    Ok(())
}

// Refuses what `judge_root` and the numbers do, a page that is mapped and tables that are too few. The numbers are those that C asks with,
// and come apart, since what they make together is for `judge_numbers` to say.
#[tactic(auto, using(crate::proofs::ReasonLaws::by_root, crate::proofs::ReasonLaws::no_numbers_lem))]
pub fn judge_map(
    store: &Store,
    root: u64,
    va: VirtualAddress,
    pa: PhysicalAddress,
    size: u64,
    perm: u64,
) -> Result<(), Refusal>
    ensures { Judges
        (MapReason (seen store.now) root va.0 pa.0 size perm)
        (MapReady (seen store.now) root va.0 pa.0 size perm)
        result }
{
    well_formed::judge_root(store, root)?;
    judge_numbers(va, pa, size, perm)?;
    let range = rounding::page_range(va, size);
    let first = range.first as usize;
    let end = range.end as usize;
    if end <= first {
        return Ok(());
    }
    let pages = RootPages {
        root: root as usize,
        first,
        end,
    };
    if walk::count_pages(store.words, pages, Bits::VALID) != 0 {
        return Err(Refusal::MappedAlready);
    }
    if !store::enough_free(store.tmarks, walk::missing_tables(store.words, pages)) {
        return Err(Refusal::TooFewTables);
    }
    Ok(())
}
