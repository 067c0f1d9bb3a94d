// A process's pages for its child, after `uvm_copy` of page_table.rs: judged whole, then done.
ghost use Rattle.std.specs.Prelude.{◌≡◌, ◌+◌, ◌*◌, ◌/◌, ◌≤◌, length, take, drop};
ghost use Rattle.store.specs.Outcome.{Judges};
ghost use Rattle.store.specs.Store.{store_of, seen};
ghost use Rattle.fresh.specs.Fill.{framed};
ghost use Rattle.fresh.specs.Fresh.{fresh_pages};
ghost use Rattle.child.specs.Child.{page_flags, page_bytes, ChildReason, ChildReady, Child};

use address::MAXVA;
use refusal::Refusal;
use store::Store;
use unmap::IN_WINDOW;
use walk::{Bits, RootPages};

// Refuses what document 01 lists for two roots. A root is told by its mark, a number that the caller lends.
#[tactic(auto, using(crate::proofs::ChildReasons::by_parent))]
fn judge_child(store: &Store, parent: u64, child: u64, size: u64) -> Result<(), Refusal>
    ensures { Judges
        (ChildReason (seen store.now) parent child size)
        (ChildReady (seen store.now) parent child size)
        result }
{
    well_formed::judge_root(store, parent)?;
    if store::mark_at(store.tmarks, child as usize) != 1 {
        return Err(Refusal::NoRoot);
    }
    if child == parent {
        return Err(Refusal::SameRoot);
    }
    if size > MAXVA {
        return Err(Refusal::TooHigh);
    }
    if size % 4096 != 0 {
        return Err(Refusal::NotAligned);
    }
    let n = (size / 4096) as usize;
    let from = RootPages {
        root: parent as usize,
        first: 0,
        end: n,
    };
    let to = RootPages {
        root: child as usize,
        first: 0,
        end: n,
    };
    if walk::count_pages(store.words, from, Bits::VALID) < n {
        return Err(Refusal::NotMapped);
    }
    if walk::count_pages(store.words, to, Bits::VALID) != 0 {
        return Err(Refusal::MappedAlready);
    }
    if walk::count_pages(store.words, from, IN_WINDOW) < n {
        return Err(Refusal::NoPoolFrame);
    }
    fresh::judge_fresh(store, to)
}

// The bytes of frame g go to frame f.
fn copy_frame(bytes: &mut [u8], g: usize, f: usize)
    requires { (4096 * g + 4096 ≤ length bytes.old) × (4096 * f + 4096 ≤ length bytes.old) }
    ensures { bytes.new ≡ framed bytes.old f (take 4096 (drop (4096 * g) bytes.old)) }
{
    let from = 4096 * g;
    let to = 4096 * f;
    // `copy_within` goes from the end down where f is above g, and `uvm_copy` of 32 to 2,048 pages then took 1.05 to 1.11 times as long.
    for i in 0..4096 {
        bytes[to + i] = bytes[from + i];
    }
}

// The first n pages of the parent go to the child: fresh frames with the same flags and bytes. The search for a free frame goes on
// behind the last one taken. Two roots in one call are this call's alone, so they make no type.
fn copy_pages(
    words: &mut [u64],
    tmarks: &mut [u32],
    bytes: &mut [u8],
    fmarks: &mut [u32],
    parent: usize,
    child: usize,
    size: u64,
)
    requires { ChildReady (store_of words.old tmarks.old bytes.old fmarks.old) parent child size }
    ensures { store_of words.new tmarks.new bytes.new fmarks.new
        ≡ fresh_pages (store_of words.old tmarks.old bytes.old fmarks.old) child 0 (size / 4096) (page_flags (store_of words.old tmarks.old bytes.old fmarks.old) parent) (page_bytes (store_of words.old tmarks.old bytes.old fmarks.old) parent) }
{
    let n = (size / 4096) as usize;
    let mut from = 0;
    for i in 0..n {
        let e = walk::slot_word(words, walk::slot_of(words, parent, i));
        let f = fresh::enter_frame(words, tmarks, fmarks, child, i, e & 0x3FF, from);
        copy_frame(bytes, (e / 1024) as usize - 0x11_0000, f);
        from = f + 1;
    }
}

// The pages that size bytes take go from the parent to the child: fresh frames with the same flags and bytes. The value is 0, as `Child`
// says; the slices are C's (docs/DECISIONS.md, 42).
pub fn uvm_copy(
    words: &mut [u64],
    tmarks: &mut [u32],
    bytes: &mut [u8],
    fmarks: &mut [u32],
    parent: u64,
    child: u64,
    size: u64,
) -> Result<u64, Refusal>
    ensures { Child
        (store_of words.old tmarks.old bytes.old fmarks.old) parent child size result
        (store_of words.new tmarks.new bytes.new fmarks.new) }
{
    let store = Store {
        words,
        tmarks,
        bytes,
        fmarks,
    };
    judge_child(&store, parent, child, size)?;
    copy_pages(
        words,
        tmarks,
        bytes,
        fmarks,
        parent as usize,
        child as usize,
        size,
    );
    Ok(0)
}
