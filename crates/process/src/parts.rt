// The calls made of parts, after `uvm_free`, `proc_free_pagetable` and `free_shared_user_pagetable` of page_table.rs: all parts are
// judged, each on what the parts before it would leave, and then all are done. The three calls, and their judges, share `judge_rest` and
// `do_rest`; what is left of each is the order of its parts, which its promise names. Of the slices only some are lent for writing
// (docs/DECISIONS.md, 42), and `true` and `false` are `freeing`, which is the Rust's.
ghost use Rattle.std.specs.Prelude.{Ok, ◌^◌, ◌≤◌};
ghost use Rattle.store.specs.Store.{store_of, seen};
ghost use Rattle.well_formed.specs.Root.{RootReady};
ghost use Rattle.process.specs.Parts.{UvmFree, SharedFree, ProcFree};
ghost use Rattle.process.specs.PartsReady.{JudgesParts, RestReady, SharedReady, ProcReady, JudgesRest};

use address::{MAXVA, VirtualAddress};
use refusal::Refusal;
use store::Store;
use walk::{Bits, RootPages};

const PAGES: usize = 1 << 26;

const TRAMPOLINE: VirtualAddress = VirtualAddress(0x3F_FFFF_F000);

const TRAMPOLINE_PAGE: usize = 0x3FF_FFFF;

const TRAPFRAME_PAGE: usize = 0x3FF_FFFE;

// Judges the last parts, unmapping from 0 to size and freeing, where the pages from top on have gone before.
fn judge_rest(store: &Store, root: usize, size: u64, top: usize) -> Result<(), Refusal>
    requires { RootReady (seen store.now) root × (top ≤ 2 ^ 26) }
    ensures { JudgesRest (seen store.now) root size top result }
{
    if size > MAXVA {
        return Err(Refusal::TooHigh);
    }
    let n = shrink::pages_to(size);
    if n > top {
        return Err(Refusal::NotMapped);
    }
    let leaving = RootPages {
        root,
        first: 0,
        end: n,
    };
    unmap::judge_leave(store, leaving, true)?;
    let rest = RootPages {
        root,
        first: n,
        end: top,
    };
    if walk::count_pages(store.words, rest, Bits::VALID) != 0 {
        return Err(Refusal::PageLeft);
    }
    Ok(())
}

// The last parts, which cannot fail: the pages from 0 to size leave with freeing, and then the tables of the root are given back.
fn do_rest(
    words: &mut [u64],
    tmarks: &mut [u32],
    bytes: &[u8],
    fmarks: &mut [u32],
    root: usize,
    size: u64,
) -> u64
    requires { RestReady root size (store_of words.old tmarks.old bytes.now fmarks.old) }
    ensures { UvmFree root size
        (store_of words.old tmarks.old bytes.now fmarks.old) (Ok result)
        (store_of words.new tmarks.new bytes.now fmarks.new) }
{
    unmap::leave_pages(
        words,
        tmarks,
        bytes,
        fmarks,
        root,
        0,
        shrink::pages_to(size),
        true,
    );
    release::free_table(words, tmarks, root, 2) as u64
}

// Judges the root, and then the last parts.
fn judge_uvm_free(store: &Store, root: u64, size: u64) -> Result<(), Refusal>
    ensures { JudgesParts (UvmFree root size) (RestReady root size) (seen store.now) result }
{
    well_formed::judge_root(store, root)?;
    judge_rest(store, root as usize, size, PAGES)
}

// Takes the pages from 0 to size out of a root with freeing, then gives back its tables, and answers how many.
pub fn uvm_free(
    words: &mut [u64],
    tmarks: &mut [u32],
    bytes: &[u8],
    fmarks: &mut [u32],
    root: u64,
    size: u64,
) -> Result<u64, Refusal>
    ensures { UvmFree root size
        (store_of words.old tmarks.old bytes.now fmarks.old) result
        (store_of words.new tmarks.new bytes.now fmarks.new) }
{
    let store = Store {
        words,
        tmarks,
        bytes,
        fmarks,
    };
    judge_uvm_free(&store, root, size)?;
    Ok(do_rest(words, tmarks, bytes, fmarks, root as usize, size))
}

// Judges the leaving of TRAMPOLINE without freeing, and then the last parts.
fn judge_shared(store: &Store, root: u64, size: u64) -> Result<(), Refusal>
    ensures { JudgesParts (SharedFree root size) (SharedReady root size) (seen store.now) result }
{
    unmap::judge_unmap(store, root, TRAMPOLINE, 1, false)?;
    judge_rest(store, root as usize, size, TRAMPOLINE_PAGE)
}

// As `uvm_free`, after TRAMPOLINE has left without freeing.
pub fn free_shared_user_pagetable(
    words: &mut [u64],
    tmarks: &mut [u32],
    bytes: &[u8],
    fmarks: &mut [u32],
    root: u64,
    size: u64,
) -> Result<u64, Refusal>
    ensures { SharedFree root size
        (store_of words.old tmarks.old bytes.now fmarks.old) result
        (store_of words.new tmarks.new bytes.now fmarks.new) }
{
    let store = Store {
        words,
        tmarks,
        bytes,
        fmarks,
    };
    judge_shared(&store, root, size)?;
    let root = root as usize;
    unmap::leave_pages(
        words,
        tmarks,
        bytes,
        fmarks,
        root,
        TRAMPOLINE_PAGE,
        1,
        false,
    );
    Ok(do_rest(words, tmarks, bytes, fmarks, root, size))
}

// Judges the leaving of TRAMPOLINE and TRAPFRAME without freeing, and then the last parts.
fn judge_proc(store: &Store, root: u64, size: u64) -> Result<(), Refusal>
    ensures { JudgesParts (ProcFree root size) (ProcReady root size) (seen store.now) result }
{
    unmap::judge_unmap(store, root, TRAMPOLINE, 1, false)?;
    let root = root as usize;
    let trapframe = RootPages {
        root,
        first: TRAPFRAME_PAGE,
        end: TRAPFRAME_PAGE + 1,
    };
    unmap::judge_leave(store, trapframe, false)?;
    judge_rest(store, root, size, TRAPFRAME_PAGE)
}

// As `uvm_free`, after TRAMPOLINE and TRAPFRAME have left without freeing.
pub fn proc_free_pagetable(
    words: &mut [u64],
    tmarks: &mut [u32],
    bytes: &[u8],
    fmarks: &mut [u32],
    root: u64,
    size: u64,
) -> Result<u64, Refusal>
    ensures { ProcFree root size
        (store_of words.old tmarks.old bytes.now fmarks.old) result
        (store_of words.new tmarks.new bytes.now fmarks.new) }
{
    let store = Store {
        words,
        tmarks,
        bytes,
        fmarks,
    };
    judge_proc(&store, root, size)?;
    let root = root as usize;
    unmap::leave_pages(
        words,
        tmarks,
        bytes,
        fmarks,
        root,
        TRAMPOLINE_PAGE,
        1,
        false,
    );
    unmap::leave_pages(words, tmarks, bytes, fmarks, root, TRAPFRAME_PAGE, 1, false);
    Ok(do_rest(words, tmarks, bytes, fmarks, root, size))
}
