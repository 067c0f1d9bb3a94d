// The helpers of addresses, exported.
ghost use Rattle.std.specs.Prelude.{◌≡◌, ◌+◌, ◌%◌, ltb, eqb};
ghost use Rattle.address.specs.Page.{down, up};
ghost use Rattle.address.specs.Answer.{within64, at_least0, index_at};
ghost use Rattle.replies.specs.Reply.{reply_of};

use replies::Reply;

#[unsafe(no_mangle)]
pub extern "C" fn ronakvesh_virtual_new(addr: u64) -> u64
    ensures { result ≡ addr }
{
    interface::addresses::ronakvesh_virtual_new(addr)
}

#[unsafe(no_mangle)]
pub extern "C" fn ronakvesh_virtual_is_page_aligned(va: u64) -> bool
    ensures { result ≡ eqb (va % 4096) 0 }
{
    interface::addresses::ronakvesh_virtual_is_page_aligned(va)
}

#[unsafe(no_mangle)]
pub extern "C" fn ronakvesh_virtual_pg_round_up(va: u64) -> Reply
    ensures { result ≡ reply_of (within64 (up va)) }
{
    interface::addresses::ronakvesh_virtual_pg_round_up(va)
}

#[unsafe(no_mangle)]
pub extern "C" fn ronakvesh_virtual_pg_round_down(va: u64) -> u64
    ensures { result ≡ down va }
{
    interface::addresses::ronakvesh_virtual_pg_round_down(va)
}

#[unsafe(no_mangle)]
pub extern "C" fn ronakvesh_virtual_add_page(va: u64) -> Reply
    ensures { result ≡ reply_of (within64 (va + 4096)) }
{
    interface::addresses::ronakvesh_virtual_add_page(va)
}

#[unsafe(no_mangle)]
pub extern "C" fn ronakvesh_virtual_compare(va: u64, other: u64) -> bool
    ensures { result ≡ ltb other va }
{
    interface::addresses::ronakvesh_virtual_compare(va, other)
}

#[unsafe(no_mangle)]
pub extern "C" fn ronakvesh_virtual_equal(va: u64, other: u64) -> bool
    ensures { result ≡ eqb va other }
{
    interface::addresses::ronakvesh_virtual_equal(va, other)
}

#[unsafe(no_mangle)]
pub extern "C" fn ronakvesh_virtual_add_addr(va: u64, addr: u64) -> Reply
    ensures { result ≡ reply_of (within64 (va + addr)) }
{
    interface::addresses::ronakvesh_virtual_add_addr(va, addr)
}

#[unsafe(no_mangle)]
pub extern "C" fn ronakvesh_virtual_page_num(va: u64, level: u64) -> Reply
    ensures { result ≡ reply_of (index_at level va) }
{
    interface::addresses::ronakvesh_virtual_page_num(va, level)
}

#[unsafe(no_mangle)]
pub extern "C" fn ronakvesh_virtual_add(va: u64, other: u64) -> Reply
    ensures { result ≡ reply_of (within64 (va + other)) }
{
    interface::addresses::ronakvesh_virtual_add(va, other)
}

#[unsafe(no_mangle)]
pub extern "C" fn ronakvesh_virtual_sub(va: u64, other: u64) -> Reply
    ensures { result ≡ reply_of (at_least0 va other) }
{
    interface::addresses::ronakvesh_virtual_sub(va, other)
}

#[unsafe(no_mangle)]
pub extern "C" fn ronakvesh_physical_new(addr: u64) -> u64
    ensures { result ≡ addr }
{
    interface::addresses::ronakvesh_physical_new(addr)
}

#[unsafe(no_mangle)]
pub extern "C" fn ronakvesh_physical_is_page_aligned(pa: u64) -> bool
    ensures { result ≡ eqb (pa % 4096) 0 }
{
    interface::addresses::ronakvesh_physical_is_page_aligned(pa)
}

#[unsafe(no_mangle)]
pub extern "C" fn ronakvesh_physical_pg_round_up(pa: u64) -> Reply
    ensures { result ≡ reply_of (within64 (up pa)) }
{
    interface::addresses::ronakvesh_physical_pg_round_up(pa)
}

#[unsafe(no_mangle)]
pub extern "C" fn ronakvesh_physical_pg_round_down(pa: u64) -> u64
    ensures { result ≡ down pa }
{
    interface::addresses::ronakvesh_physical_pg_round_down(pa)
}

#[unsafe(no_mangle)]
pub extern "C" fn ronakvesh_physical_add_page(pa: u64) -> Reply
    ensures { result ≡ reply_of (within64 (pa + 4096)) }
{
    interface::addresses::ronakvesh_physical_add_page(pa)
}

#[unsafe(no_mangle)]
pub extern "C" fn ronakvesh_physical_add_addr(pa: u64, addr: u64) -> Reply
    ensures { result ≡ reply_of (within64 (pa + addr)) }
{
    interface::addresses::ronakvesh_physical_add_addr(pa, addr)
}
