// The helpers of entries: an entry is a number, and an answer is a reply.
ghost use Rattle.std.specs.Prelude.{◌≡◌};
ghost use Rattle.page_table_entry.specs.Layout.{bit_v, bit_r, bit_w, bit_x, bit_u, has, leaf, flags, frame_of};
ghost use Rattle.page_table_entry.specs.Change.{with_bit};
ghost use Rattle.page_table_entry.specs.Built.{named, written};
ghost use Rattle.replies.specs.Reply.{reply_of};

use address::{Address, PhysicalAddress};
use page_table_entry::PageTableEntry;
use replies::Reply;

pub fn ronakvesh_entry_new(addr: u64) -> u64
    ensures { result ≡ addr }
{
    PageTableEntry::new(addr).as_usize()
}

pub fn ronakvesh_entry_is_valid(e: u64) -> bool
    ensures { result ≡ has bit_v e }
{
    PageTableEntry(e).is_valid()
}

pub fn ronakvesh_entry_is_user(e: u64) -> bool
    ensures { result ≡ has bit_u e }
{
    PageTableEntry(e).is_user()
}

pub fn ronakvesh_entry_is_read(e: u64) -> bool
    ensures { result ≡ has bit_r e }
{
    PageTableEntry(e).is_read()
}

pub fn ronakvesh_entry_is_write(e: u64) -> bool
    ensures { result ≡ has bit_w e }
{
    PageTableEntry(e).is_write()
}

pub fn ronakvesh_entry_is_execute(e: u64) -> bool
    ensures { result ≡ has bit_x e }
{
    PageTableEntry(e).is_execute()
}

pub fn ronakvesh_entry_is_leaf(e: u64) -> bool
    ensures { result ≡ leaf e }
{
    PageTableEntry(e).is_leaf()
}

pub fn ronakvesh_entry_add_valid_bit(e: u64) -> u64
    ensures { result ≡ with_bit bit_v 1 e }
{
    PageTableEntry(e).add_valid_bit().as_usize()
}

pub fn ronakvesh_entry_add_user_bit(e: u64) -> u64
    ensures { result ≡ with_bit bit_u 1 e }
{
    PageTableEntry(e).add_user_bit().as_usize()
}

pub fn ronakvesh_entry_rm_user_bit(e: u64) -> u64
    ensures { result ≡ with_bit bit_u 0 e }
{
    PageTableEntry(e).rm_user_bit().as_usize()
}

pub fn ronakvesh_entry_as_pagetable(e: u64) -> u64
    ensures { result ≡ frame_of e }
{
    PageTableEntry(e).as_pagetable().as_usize()
}

pub fn ronakvesh_entry_as_pte(pa: u64) -> Reply
    ensures { result ≡ reply_of (named pa) }
{
    Reply::from(PageTableEntry::as_pte(PhysicalAddress(pa)))
}

pub fn ronakvesh_entry_as_flags(e: u64) -> u64
    ensures { result ≡ flags e }
{
    PageTableEntry(e).as_flags()
}

pub fn ronakvesh_entry_write_zero() -> u64
    ensures { result ≡ 0 }
{
    PageTableEntry::write_zero().as_usize()
}

pub fn ronakvesh_entry_write_perm(pa: u64, perm: u64) -> Reply
    ensures { result ≡ reply_of (written pa perm) }
{
    Reply::from(PageTableEntry::write_perm(PhysicalAddress(pa), perm))
}
