// The call itself: judged whole, then entered.
ghost use Rattle.store.specs.Store.{store_of};
ghost use Rattle.map.specs.Map.{Map};

use super::judge;
use address::{PhysicalAddress, VirtualAddress};
use page_table_entry::PageTableEntry;
use refusal::Refusal;
use store::Store;
use walk::RootPages;

// Maps the pages that size bytes from va on lie in, to the frames from pa on. Answers how many tables it took.
// Only some slices are lent for writing (docs/DECISIONS.md, 42), and the numbers are those that C asks with.
pub fn map(
    words: &mut [u64],
    tmarks: &mut [u32],
    bytes: &[u8],
    fmarks: &[u32],
    root: u64,
    va: VirtualAddress,
    pa: PhysicalAddress,
    size: u64,
    perm: u64,
) -> Result<u64, Refusal>
    ensures { Map
        (store_of words.old tmarks.old bytes.now fmarks.now) root va.0 pa.0 size perm result
        (store_of words.new tmarks.new bytes.now fmarks.now) }
{
    let store = Store {
        words,
        tmarks,
        bytes,
        fmarks,
    };
    judge::judge_map(&store, root, va, pa, size, perm)?;
    let range = rounding::page_range(va, size);
    let first = range.first as usize;
    let end = range.end as usize;
    if end <= first {
        return Ok(0);
    }
    let e = PageTableEntry::write_perm(pa, perm)?;
    let pages = RootPages {
        root: root as usize,
        first,
        end,
    };
    let taken = walk::missing_tables(words, pages);
    enter::enter_pages(
        words,
        tmarks,
        bytes,
        fmarks,
        pages.root,
        first,
        end - first,
        e.0,
    );
    Ok(taken as u64)
}
