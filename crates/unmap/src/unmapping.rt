// The calls themselves: judged whole, then done. Each takes the slices apart, since only some are lent for writing (docs/DECISIONS.md, 42),
// and its value is 0, as `Unmap` and `Clear` say.
ghost use Rattle.store.specs.Store.{store_of};
ghost use Rattle.unmap.specs.Unmap.{Unmap};
ghost use Rattle.unmap.specs.Clear.{Clear};

use super::{judge, leave};
use address::{MAXVA, VirtualAddress};
use page_table_entry::PageTableEntry;
use refusal::Refusal;
use store::Store;

// Takes n pages, from that of va on, out of a root. With freeing their pool frames are given back; without it there may be none.
pub fn uvm_unmap(
    words: &mut [u64],
    tmarks: &[u32],
    bytes: &[u8],
    fmarks: &mut [u32],
    root: u64,
    va: VirtualAddress,
    n: u64,
    freeing: bool,
) -> Result<u64, Refusal>
    ensures { Unmap
        (store_of words.old tmarks.now bytes.now fmarks.old) root va.0 n freeing result
        (store_of words.new tmarks.now bytes.now fmarks.new) }
{
    let store = Store {
        words,
        tmarks,
        bytes,
        fmarks,
    };
    judge::judge_unmap(&store, root, va, n, freeing)?;
    if n == 0 {
        return Ok(0);
    }
    leave::leave_pages(
        words,
        tmarks,
        bytes,
        fmarks,
        root as usize,
        (va.0 / 4096) as usize,
        n as usize,
        freeing,
    );
    Ok(0)
}

// Takes U away from the page of va. A page that is not mapped stays so, where its level-0 table is there;
// a slot below 2 is none, as `slot_in` says.
#[tactic(auto, using(crate::proofs::ClearLaws::by_root))]
pub fn uvm_clear(
    words: &mut [u64],
    tmarks: &[u32],
    bytes: &[u8],
    fmarks: &[u32],
    root: u64,
    va: VirtualAddress,
) -> Result<u64, Refusal>
    ensures { Clear
        (store_of words.old tmarks.now bytes.now fmarks.now) root va.0 result
        (store_of words.new tmarks.now bytes.now fmarks.now) }
{
    let store = Store {
        words,
        tmarks,
        bytes,
        fmarks,
    };
    well_formed::judge_root(&store, root)?;
    if va.0 >= MAXVA {
        return Err(Refusal::TooHigh);
    }
    let m = walk::slot_of(words, root as usize, (va.0 / 4096) as usize);
    if m < 2 {
        return Err(Refusal::NotMapped);
    }
    let e = PageTableEntry(walk::slot_word(words, m)).rm_user_bit();
    enter::put_slot(words, m, e.0);
    Ok(0)
}
