// The helpers of entries, exported.
ghost use Rattle.std.specs.Prelude.{◌≡◌};
ghost use Rattle.page_table_entry.specs.Layout.{bit_v, bit_r, bit_w, bit_x, bit_u, has, leaf, flags, frame_of};
ghost use Rattle.page_table_entry.specs.Change.{with_bit};
ghost use Rattle.page_table_entry.specs.Built.{named, written};
ghost use Rattle.replies.specs.Reply.{reply_of};

use replies::Reply;

#[unsafe(no_mangle)]
pub extern "C" fn ronakvesh_entry_new(addr: u64) -> u64
    ensures { result ≡ addr }
{
    interface::entries::ronakvesh_entry_new(addr)
}

#[unsafe(no_mangle)]
pub extern "C" fn ronakvesh_entry_is_valid(e: u64) -> bool
    ensures { result ≡ has bit_v e }
{
    interface::entries::ronakvesh_entry_is_valid(e)
}

#[unsafe(no_mangle)]
pub extern "C" fn ronakvesh_entry_is_user(e: u64) -> bool
    ensures { result ≡ has bit_u e }
{
    interface::entries::ronakvesh_entry_is_user(e)
}

#[unsafe(no_mangle)]
pub extern "C" fn ronakvesh_entry_is_read(e: u64) -> bool
    ensures { result ≡ has bit_r e }
{
    interface::entries::ronakvesh_entry_is_read(e)
}

#[unsafe(no_mangle)]
pub extern "C" fn ronakvesh_entry_is_write(e: u64) -> bool
    ensures { result ≡ has bit_w e }
{
    interface::entries::ronakvesh_entry_is_write(e)
}

#[unsafe(no_mangle)]
pub extern "C" fn ronakvesh_entry_is_execute(e: u64) -> bool
    ensures { result ≡ has bit_x e }
{
    interface::entries::ronakvesh_entry_is_execute(e)
}

#[unsafe(no_mangle)]
pub extern "C" fn ronakvesh_entry_is_leaf(e: u64) -> bool
    ensures { result ≡ leaf e }
{
    interface::entries::ronakvesh_entry_is_leaf(e)
}

#[unsafe(no_mangle)]
pub extern "C" fn ronakvesh_entry_add_valid_bit(e: u64) -> u64
    ensures { result ≡ with_bit bit_v 1 e }
{
    interface::entries::ronakvesh_entry_add_valid_bit(e)
}

#[unsafe(no_mangle)]
pub extern "C" fn ronakvesh_entry_add_user_bit(e: u64) -> u64
    ensures { result ≡ with_bit bit_u 1 e }
{
    interface::entries::ronakvesh_entry_add_user_bit(e)
}

#[unsafe(no_mangle)]
pub extern "C" fn ronakvesh_entry_rm_user_bit(e: u64) -> u64
    ensures { result ≡ with_bit bit_u 0 e }
{
    interface::entries::ronakvesh_entry_rm_user_bit(e)
}

#[unsafe(no_mangle)]
pub extern "C" fn ronakvesh_entry_as_pagetable(e: u64) -> u64
    ensures { result ≡ frame_of e }
{
    interface::entries::ronakvesh_entry_as_pagetable(e)
}

#[unsafe(no_mangle)]
pub extern "C" fn ronakvesh_entry_as_pte(pa: u64) -> Reply
    ensures { result ≡ reply_of (named pa) }
{
    interface::entries::ronakvesh_entry_as_pte(pa)
}

#[unsafe(no_mangle)]
pub extern "C" fn ronakvesh_entry_as_flags(e: u64) -> u64
    ensures { result ≡ flags e }
{
    interface::entries::ronakvesh_entry_as_flags(e)
}

#[unsafe(no_mangle)]
pub extern "C" fn ronakvesh_entry_write_zero() -> u64
    ensures { result ≡ 0 }
{
    interface::entries::ronakvesh_entry_write_zero()
}

#[unsafe(no_mangle)]
pub extern "C" fn ronakvesh_entry_write_perm(pa: u64, perm: u64) -> Reply
    ensures { result ≡ reply_of (written pa perm) }
{
    interface::entries::ronakvesh_entry_write_perm(pa, perm)
}
