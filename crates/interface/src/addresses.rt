// The helpers of addresses: an address is a number, and an answer is a reply.
ghost use Rattle.std.specs.Prelude.{◌≡◌, ◌+◌, ◌%◌, ltb, eqb};
ghost use Rattle.address.specs.Page.{down, up};
ghost use Rattle.address.specs.Answer.{within64, at_least0, index_at};
ghost use Rattle.replies.specs.Reply.{reply_of};

use address::{Address, PhysicalAddress, VirtualAddress};
use replies::Reply;

pub fn ronakvesh_virtual_new(addr: u64) -> u64
    ensures { result ≡ addr }
{
    VirtualAddress::new(addr).as_usize()
}

pub fn ronakvesh_virtual_is_page_aligned(va: u64) -> bool
    ensures { result ≡ eqb (va % 4096) 0 }
{
    VirtualAddress(va).is_page_aligned()
}

pub fn ronakvesh_virtual_pg_round_up(va: u64) -> Reply
    ensures { result ≡ reply_of (within64 (up va)) }
{
    Reply::from(VirtualAddress(va).pg_round_up())
}

pub fn ronakvesh_virtual_pg_round_down(va: u64) -> u64
    ensures { result ≡ down va }
{
    VirtualAddress(va).pg_round_down().as_usize()
}

pub fn ronakvesh_virtual_add_page(va: u64) -> Reply
    ensures { result ≡ reply_of (within64 (va + 4096)) }
{
    Reply::from(VirtualAddress(va).add_page())
}

pub fn ronakvesh_virtual_compare(va: u64, other: u64) -> bool
    ensures { result ≡ ltb other va }
{
    VirtualAddress(va).compare(VirtualAddress(other))
}

pub fn ronakvesh_virtual_equal(va: u64, other: u64) -> bool
    ensures { result ≡ eqb va other }
{
    VirtualAddress(va).equal(VirtualAddress(other))
}

pub fn ronakvesh_virtual_add_addr(va: u64, addr: u64) -> Reply
    ensures { result ≡ reply_of (within64 (va + addr)) }
{
    Reply::from(VirtualAddress(va).add_addr(addr))
}

pub fn ronakvesh_virtual_page_num(va: u64, level: u64) -> Reply
    ensures { result ≡ reply_of (index_at level va) }
{
    Reply::from(VirtualAddress(va).page_num(level))
}

pub fn ronakvesh_virtual_add(va: u64, other: u64) -> Reply
    ensures { result ≡ reply_of (within64 (va + other)) }
{
    Reply::from(VirtualAddress(va).add(VirtualAddress(other)))
}

pub fn ronakvesh_virtual_sub(va: u64, other: u64) -> Reply
    ensures { result ≡ reply_of (at_least0 va other) }
{
    Reply::from(VirtualAddress(va).sub(VirtualAddress(other)))
}

pub fn ronakvesh_physical_new(addr: u64) -> u64
    ensures { result ≡ addr }
{
    PhysicalAddress::new(addr).as_usize()
}

pub fn ronakvesh_physical_is_page_aligned(pa: u64) -> bool
    ensures { result ≡ eqb (pa % 4096) 0 }
{
    PhysicalAddress(pa).is_page_aligned()
}

pub fn ronakvesh_physical_pg_round_up(pa: u64) -> Reply
    ensures { result ≡ reply_of (within64 (up pa)) }
{
    Reply::from(PhysicalAddress(pa).pg_round_up())
}

pub fn ronakvesh_physical_pg_round_down(pa: u64) -> u64
    ensures { result ≡ down pa }
{
    PhysicalAddress(pa).pg_round_down().as_usize()
}

pub fn ronakvesh_physical_add_page(pa: u64) -> Reply
    ensures { result ≡ reply_of (within64 (pa + 4096)) }
{
    Reply::from(PhysicalAddress(pa).add_page())
}

pub fn ronakvesh_physical_add_addr(pa: u64, addr: u64) -> Reply
    ensures { result ≡ reply_of (within64 (pa + addr)) }
{
    Reply::from(PhysicalAddress(pa).add_addr(addr))
}
