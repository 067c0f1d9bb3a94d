// The calls on a store, exported: C needs a name and four slices for each, and the work stands in `interface`.
ghost use Rattle.store.specs.Store.{store_of};
ghost use Rattle.interface.specs.Calls.{SetUpReply, CheckReply, TranslateReply, SatpReply, CreateReply, MapReply, UnmapReply, ClearReply, InitReply, GrowReply, ShrinkReply, InReply, OutReply, StrReply, ChildReply, FreeReply, UvmFreeReply, SharedFreeReply, ProcFreeReply};

use replies::Reply;

#[unsafe(no_mangle)]
pub extern "C" fn ronakvesh_set_up(
    words: &mut [u64],
    tmarks: &mut [u32],
    bytes: &mut [u8],
    fmarks: &mut [u32],
) -> Reply
    ensures { SetUpReply
        (store_of words.old tmarks.old bytes.old fmarks.old) result
        (store_of words.new tmarks.new bytes.new fmarks.new) }
{
    interface::calls::ronakvesh_set_up(words, tmarks, bytes, fmarks)
}

#[unsafe(no_mangle)]
pub extern "C" fn ronakvesh_check(
    words: &[u64],
    tmarks: &[u32],
    bytes: &[u8],
    fmarks: &[u32],
) -> Reply
    ensures { CheckReply (store_of words.now tmarks.now bytes.now fmarks.now) result }
{
    interface::calls::ronakvesh_check(words, tmarks, bytes, fmarks)
}

#[unsafe(no_mangle)]
pub extern "C" fn ronakvesh_pgt_translate(
    words: &[u64],
    tmarks: &[u32],
    bytes: &[u8],
    fmarks: &[u32],
    root: u64,
    va: u64,
) -> Reply
    ensures { TranslateReply (store_of words.now tmarks.now bytes.now fmarks.now) root va result }
{
    interface::calls::ronakvesh_pgt_translate(words, tmarks, bytes, fmarks, root, va)
}

#[unsafe(no_mangle)]
pub extern "C" fn ronakvesh_as_satp(
    words: &[u64],
    tmarks: &[u32],
    bytes: &[u8],
    fmarks: &[u32],
    root: u64,
) -> Reply
    ensures { SatpReply (store_of words.now tmarks.now bytes.now fmarks.now) root result }
{
    interface::calls::ronakvesh_as_satp(words, tmarks, bytes, fmarks, root)
}

#[unsafe(no_mangle)]
pub extern "C" fn ronakvesh_uvmcreate(
    words: &[u64],
    tmarks: &mut [u32],
    bytes: &[u8],
    fmarks: &[u32],
) -> Reply
    ensures { CreateReply
        (store_of words.now tmarks.old bytes.now fmarks.now) result
        (store_of words.now tmarks.new bytes.now fmarks.now) }
{
    interface::calls::ronakvesh_uvmcreate(words, tmarks, bytes, fmarks)
}

#[unsafe(no_mangle)]
pub extern "C" fn ronakvesh_map(
    words: &mut [u64],
    tmarks: &mut [u32],
    bytes: &[u8],
    fmarks: &[u32],
    root: u64,
    va: u64,
    pa: u64,
    size: u64,
    perm: u64,
) -> Reply
    ensures { MapReply
        (store_of words.old tmarks.old bytes.now fmarks.now) root va pa size perm result
        (store_of words.new tmarks.new bytes.now fmarks.now) }
{
    interface::calls::ronakvesh_map(words, tmarks, bytes, fmarks, root, va, pa, size, perm)
}

#[unsafe(no_mangle)]
pub extern "C" fn ronakvesh_uvm_unmap(
    words: &mut [u64],
    tmarks: &[u32],
    bytes: &[u8],
    fmarks: &mut [u32],
    root: u64,
    va: u64,
    pages: u64,
    freeing: bool,
) -> Reply
    ensures { UnmapReply
        (store_of words.old tmarks.now bytes.now fmarks.old) root va pages freeing result
        (store_of words.new tmarks.now bytes.now fmarks.new) }
{
    interface::calls::ronakvesh_uvm_unmap(words, tmarks, bytes, fmarks, root, va, pages, freeing)
}

#[unsafe(no_mangle)]
pub extern "C" fn ronakvesh_uvm_clear(
    words: &mut [u64],
    tmarks: &[u32],
    bytes: &[u8],
    fmarks: &[u32],
    root: u64,
    va: u64,
) -> Reply
    ensures { ClearReply
        (store_of words.old tmarks.now bytes.now fmarks.now) root va result
        (store_of words.new tmarks.now bytes.now fmarks.now) }
{
    interface::calls::ronakvesh_uvm_clear(words, tmarks, bytes, fmarks, root, va)
}

#[unsafe(no_mangle)]
pub extern "C" fn ronakvesh_uvm_init(
    words: &mut [u64],
    tmarks: &mut [u32],
    bytes: &mut [u8],
    fmarks: &mut [u32],
    root: u64,
    src: &[u8],
) -> Reply
    ensures { InitReply
        (store_of words.old tmarks.old bytes.old fmarks.old) root src.now result
        (store_of words.new tmarks.new bytes.new fmarks.new) }
{
    interface::calls::ronakvesh_uvm_init(words, tmarks, bytes, fmarks, root, src)
}

#[unsafe(no_mangle)]
pub extern "C" fn ronakvesh_uvm_alloc(
    words: &mut [u64],
    tmarks: &mut [u32],
    bytes: &mut [u8],
    fmarks: &mut [u32],
    root: u64,
    old: u64,
    new: u64,
) -> Reply
    ensures { GrowReply
        (store_of words.old tmarks.old bytes.old fmarks.old) root old new result
        (store_of words.new tmarks.new bytes.new fmarks.new) }
{
    interface::calls::ronakvesh_uvm_alloc(words, tmarks, bytes, fmarks, root, old, new)
}

#[unsafe(no_mangle)]
pub extern "C" fn ronakvesh_uvm_dealloc(
    words: &mut [u64],
    tmarks: &[u32],
    bytes: &[u8],
    fmarks: &mut [u32],
    root: u64,
    old: u64,
    new: u64,
) -> Reply
    ensures { ShrinkReply
        (store_of words.old tmarks.now bytes.now fmarks.old) root old new result
        (store_of words.new tmarks.now bytes.now fmarks.new) }
{
    interface::calls::ronakvesh_uvm_dealloc(words, tmarks, bytes, fmarks, root, old, new)
}

#[unsafe(no_mangle)]
pub extern "C" fn ronakvesh_copy_in(
    words: &[u64],
    tmarks: &[u32],
    bytes: &[u8],
    fmarks: &[u32],
    root: u64,
    va: u64,
    dst: &mut [u8],
) -> Reply
    ensures { InReply (store_of words.now tmarks.now bytes.now fmarks.now) root va dst.old result dst.new }
{
    interface::calls::ronakvesh_copy_in(words, tmarks, bytes, fmarks, root, va, dst)
}

#[unsafe(no_mangle)]
pub extern "C" fn ronakvesh_copy_out(
    words: &[u64],
    tmarks: &[u32],
    bytes: &mut [u8],
    fmarks: &[u32],
    root: u64,
    va: u64,
    src: &[u8],
) -> Reply
    ensures { OutReply
        (store_of words.now tmarks.now bytes.old fmarks.now) root va src.now result
        (store_of words.now tmarks.now bytes.new fmarks.now) }
{
    interface::calls::ronakvesh_copy_out(words, tmarks, bytes, fmarks, root, va, src)
}

#[unsafe(no_mangle)]
pub extern "C" fn ronakvesh_copy_in_str(
    words: &[u64],
    tmarks: &[u32],
    bytes: &[u8],
    fmarks: &[u32],
    root: u64,
    va: u64,
    dst: &mut [u8],
) -> Reply
    ensures { StrReply (store_of words.now tmarks.now bytes.now fmarks.now) root va dst.old result dst.new }
{
    interface::calls::ronakvesh_copy_in_str(words, tmarks, bytes, fmarks, root, va, dst)
}

#[unsafe(no_mangle)]
pub extern "C" fn ronakvesh_uvm_copy(
    words: &mut [u64],
    tmarks: &mut [u32],
    bytes: &mut [u8],
    fmarks: &mut [u32],
    parent: u64,
    child: u64,
    size: u64,
) -> Reply
    ensures { ChildReply
        (store_of words.old tmarks.old bytes.old fmarks.old) parent child size result
        (store_of words.new tmarks.new bytes.new fmarks.new) }
{
    interface::calls::ronakvesh_uvm_copy(words, tmarks, bytes, fmarks, parent, child, size)
}

#[unsafe(no_mangle)]
pub extern "C" fn ronakvesh_free(
    words: &mut [u64],
    tmarks: &mut [u32],
    bytes: &[u8],
    fmarks: &[u32],
    root: u64,
) -> Reply
    ensures { FreeReply
        (store_of words.old tmarks.old bytes.now fmarks.now) root result
        (store_of words.new tmarks.new bytes.now fmarks.now) }
{
    interface::calls::ronakvesh_free(words, tmarks, bytes, fmarks, root)
}

#[unsafe(no_mangle)]
pub extern "C" fn ronakvesh_uvm_free(
    words: &mut [u64],
    tmarks: &mut [u32],
    bytes: &[u8],
    fmarks: &mut [u32],
    root: u64,
    size: u64,
) -> Reply
    ensures { UvmFreeReply
        (store_of words.old tmarks.old bytes.now fmarks.old) root size result
        (store_of words.new tmarks.new bytes.now fmarks.new) }
{
    interface::calls::ronakvesh_uvm_free(words, tmarks, bytes, fmarks, root, size)
}

#[unsafe(no_mangle)]
pub extern "C" fn ronakvesh_free_shared_user_pagetable(
    words: &mut [u64],
    tmarks: &mut [u32],
    bytes: &[u8],
    fmarks: &mut [u32],
    root: u64,
    size: u64,
) -> Reply
    ensures { SharedFreeReply
        (store_of words.old tmarks.old bytes.now fmarks.old) root size result
        (store_of words.new tmarks.new bytes.now fmarks.new) }
{
    interface::calls::ronakvesh_free_shared_user_pagetable(words, tmarks, bytes, fmarks, root, size)
}

#[unsafe(no_mangle)]
pub extern "C" fn ronakvesh_proc_free_pagetable(
    words: &mut [u64],
    tmarks: &mut [u32],
    bytes: &[u8],
    fmarks: &mut [u32],
    root: u64,
    size: u64,
) -> Reply
    ensures { ProcFreeReply
        (store_of words.old tmarks.old bytes.now fmarks.old) root size result
        (store_of words.new tmarks.new bytes.now fmarks.new) }
{
    interface::calls::ronakvesh_proc_free_pagetable(words, tmarks, bytes, fmarks, root, size)
}
