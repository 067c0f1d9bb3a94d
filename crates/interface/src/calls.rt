// The calls on a store, which is four lent slices: an address is a number, and an answer is a reply.
// The parameters are C's, in the order of document 01's calls; `interface_c` exports each under its name.
ghost use Rattle.store.specs.Store.{store_of};
ghost use Rattle.interface.specs.Calls.{SetUpReply, CheckReply, TranslateReply, SatpReply, CreateReply, MapReply, UnmapReply, ClearReply, InitReply, GrowReply, ShrinkReply, InReply, OutReply, StrReply, ChildReply, FreeReply, UvmFreeReply, SharedFreeReply, ProcFreeReply};

use address::{PhysicalAddress, VirtualAddress};
use replies::Reply;
use store::Store;

pub fn ronakvesh_set_up(
    words: &mut [u64],
    tmarks: &mut [u32],
    bytes: &mut [u8],
    fmarks: &mut [u32],
) -> Reply
    ensures { SetUpReply
        (store_of words.old tmarks.old bytes.old fmarks.old) result
        (store_of words.new tmarks.new bytes.new fmarks.new) }
{
    Reply::from(store::set_up(words, tmarks, bytes, fmarks))
}

pub fn ronakvesh_check(words: &[u64], tmarks: &[u32], bytes: &[u8], fmarks: &[u32]) -> Reply
    ensures { CheckReply (store_of words.now tmarks.now bytes.now fmarks.now) result }
{
    let store = Store {
        words,
        tmarks,
        bytes,
        fmarks,
    };
    Reply::from(well_formed::check(&store))
}

pub fn ronakvesh_pgt_translate(
    words: &[u64],
    tmarks: &[u32],
    bytes: &[u8],
    fmarks: &[u32],
    root: u64,
    va: u64,
) -> Reply
    ensures { TranslateReply (store_of words.now tmarks.now bytes.now fmarks.now) root va result }
{
    let store = Store {
        words,
        tmarks,
        bytes,
        fmarks,
    };
    Reply::from(translate::pgt_translate(&store, root, VirtualAddress(va)))
}

pub fn ronakvesh_as_satp(
    words: &[u64],
    tmarks: &[u32],
    bytes: &[u8],
    fmarks: &[u32],
    root: u64,
) -> Reply
    ensures { SatpReply (store_of words.now tmarks.now bytes.now fmarks.now) root result }
{
    let store = Store {
        words,
        tmarks,
        bytes,
        fmarks,
    };
    Reply::from(translate::as_satp(&store, root))
}

pub fn ronakvesh_uvmcreate(words: &[u64], tmarks: &mut [u32], bytes: &[u8], fmarks: &[u32]) -> Reply
    ensures { CreateReply
        (store_of words.now tmarks.old bytes.now fmarks.now) result
        (store_of words.now tmarks.new bytes.now fmarks.now) }
{
    Reply::from(map::uvmcreate(words, tmarks, bytes, fmarks))
}

pub fn ronakvesh_map(
    words: &mut [u64],
    tmarks: &mut [u32],
    bytes: &[u8],
    fmarks: &[u32],
    root: u64,
    va: u64,
    pa: u64,
    size: u64,
    perm: u64,
) -> Reply
    ensures { MapReply
        (store_of words.old tmarks.old bytes.now fmarks.now) root va pa size perm result
        (store_of words.new tmarks.new bytes.now fmarks.now) }
{
    Reply::from(map::map(
        words,
        tmarks,
        bytes,
        fmarks,
        root,
        VirtualAddress(va),
        PhysicalAddress(pa),
        size,
        perm,
    ))
}

pub fn ronakvesh_uvm_unmap(
    words: &mut [u64],
    tmarks: &[u32],
    bytes: &[u8],
    fmarks: &mut [u32],
    root: u64,
    va: u64,
    pages: u64,
    freeing: bool,
) -> Reply
    ensures { UnmapReply
        (store_of words.old tmarks.now bytes.now fmarks.old) root va pages freeing result
        (store_of words.new tmarks.now bytes.now fmarks.new) }
{
    Reply::from(unmap::uvm_unmap(
        words,
        tmarks,
        bytes,
        fmarks,
        root,
        VirtualAddress(va),
        pages,
        freeing,
    ))
}

pub fn ronakvesh_uvm_clear(
    words: &mut [u64],
    tmarks: &[u32],
    bytes: &[u8],
    fmarks: &[u32],
    root: u64,
    va: u64,
) -> Reply
    ensures { ClearReply
        (store_of words.old tmarks.now bytes.now fmarks.now) root va result
        (store_of words.new tmarks.now bytes.now fmarks.now) }
{
    Reply::from(unmap::uvm_clear(words, tmarks, bytes, fmarks, root, VirtualAddress(va)))
}

pub fn ronakvesh_uvm_init(
    words: &mut [u64],
    tmarks: &mut [u32],
    bytes: &mut [u8],
    fmarks: &mut [u32],
    root: u64,
    src: &[u8],
) -> Reply
    ensures { InitReply
        (store_of words.old tmarks.old bytes.old fmarks.old) root src.now result
        (store_of words.new tmarks.new bytes.new fmarks.new) }
{
    Reply::from(grow::uvm_init(words, tmarks, bytes, fmarks, root, src))
}

pub fn ronakvesh_uvm_alloc(
    words: &mut [u64],
    tmarks: &mut [u32],
    bytes: &mut [u8],
    fmarks: &mut [u32],
    root: u64,
    old: u64,
    new: u64,
) -> Reply
    ensures { GrowReply
        (store_of words.old tmarks.old bytes.old fmarks.old) root old new result
        (store_of words.new tmarks.new bytes.new fmarks.new) }
{
    Reply::from(grow::uvm_alloc(words, tmarks, bytes, fmarks, root, old, new))
}

pub fn ronakvesh_uvm_dealloc(
    words: &mut [u64],
    tmarks: &[u32],
    bytes: &[u8],
    fmarks: &mut [u32],
    root: u64,
    old: u64,
    new: u64,
) -> Reply
    ensures { ShrinkReply
        (store_of words.old tmarks.now bytes.now fmarks.old) root old new result
        (store_of words.new tmarks.now bytes.now fmarks.new) }
{
    Reply::from(shrink::uvm_dealloc(words, tmarks, bytes, fmarks, root, old, new))
}

pub fn ronakvesh_copy_in(
    words: &[u64],
    tmarks: &[u32],
    bytes: &[u8],
    fmarks: &[u32],
    root: u64,
    va: u64,
    dst: &mut [u8],
) -> Reply
    ensures { InReply (store_of words.now tmarks.now bytes.now fmarks.now) root va dst.old result dst.new }
{
    let store = Store {
        words,
        tmarks,
        bytes,
        fmarks,
    };
    Reply::from(copies::copy_in(&store, root, VirtualAddress(va), dst))
}

pub fn ronakvesh_copy_out(
    words: &[u64],
    tmarks: &[u32],
    bytes: &mut [u8],
    fmarks: &[u32],
    root: u64,
    va: u64,
    src: &[u8],
) -> Reply
    ensures { OutReply
        (store_of words.now tmarks.now bytes.old fmarks.now) root va src.now result
        (store_of words.now tmarks.now bytes.new fmarks.now) }
{
    Reply::from(copies::copy_out(words, tmarks, bytes, fmarks, root, VirtualAddress(va), src))
}

#[tactic(auto, using(replies::proofs::StrReplies::str_reply))]
pub fn ronakvesh_copy_in_str(
    words: &[u64],
    tmarks: &[u32],
    bytes: &[u8],
    fmarks: &[u32],
    root: u64,
    va: u64,
    dst: &mut [u8],
) -> Reply
    ensures { StrReply (store_of words.now tmarks.now bytes.now fmarks.now) root va dst.old result dst.new }
{
    let store = Store {
        words,
        tmarks,
        bytes,
        fmarks,
    };
    Reply::from(strings::copy_in_str(&store, root, VirtualAddress(va), dst))
}

pub fn ronakvesh_uvm_copy(
    words: &mut [u64],
    tmarks: &mut [u32],
    bytes: &mut [u8],
    fmarks: &mut [u32],
    parent: u64,
    child: u64,
    size: u64,
) -> Reply
    ensures { ChildReply
        (store_of words.old tmarks.old bytes.old fmarks.old) parent child size result
        (store_of words.new tmarks.new bytes.new fmarks.new) }
{
    Reply::from(child::uvm_copy(words, tmarks, bytes, fmarks, parent, child, size))
}

pub fn ronakvesh_free(
    words: &mut [u64],
    tmarks: &mut [u32],
    bytes: &[u8],
    fmarks: &[u32],
    root: u64,
) -> Reply
    ensures { FreeReply
        (store_of words.old tmarks.old bytes.now fmarks.now) root result
        (store_of words.new tmarks.new bytes.now fmarks.now) }
{
    Reply::from(release::free(words, tmarks, bytes, fmarks, root))
}

pub fn ronakvesh_uvm_free(
    words: &mut [u64],
    tmarks: &mut [u32],
    bytes: &[u8],
    fmarks: &mut [u32],
    root: u64,
    size: u64,
) -> Reply
    ensures { UvmFreeReply
        (store_of words.old tmarks.old bytes.now fmarks.old) root size result
        (store_of words.new tmarks.new bytes.now fmarks.new) }
{
    Reply::from(process::uvm_free(words, tmarks, bytes, fmarks, root, size))
}

pub fn ronakvesh_free_shared_user_pagetable(
    words: &mut [u64],
    tmarks: &mut [u32],
    bytes: &[u8],
    fmarks: &mut [u32],
    root: u64,
    size: u64,
) -> Reply
    ensures { SharedFreeReply
        (store_of words.old tmarks.old bytes.now fmarks.old) root size result
        (store_of words.new tmarks.new bytes.now fmarks.new) }
{
    Reply::from(process::free_shared_user_pagetable(words, tmarks, bytes, fmarks, root, size))
}

pub fn ronakvesh_proc_free_pagetable(
    words: &mut [u64],
    tmarks: &mut [u32],
    bytes: &[u8],
    fmarks: &mut [u32],
    root: u64,
    size: u64,
) -> Reply
    ensures { ProcFreeReply
        (store_of words.old tmarks.old bytes.now fmarks.old) root size result
        (store_of words.new tmarks.new bytes.now fmarks.new) }
{
    Reply::from(process::proc_free_pagetable(words, tmarks, bytes, fmarks, root, size))
}
