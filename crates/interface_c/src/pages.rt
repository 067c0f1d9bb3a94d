// The helpers of rounding and of the pages of a range, exported.
ghost use Rattle.std.specs.Prelude.{◌≡◌};
ghost use Rattle.address.specs.Page.{down, up};
ghost use Rattle.address.specs.Answer.{within64};
ghost use Rattle.rounding.specs.Range.{Covers};
ghost use Rattle.replies.specs.Reply.{reply_of};

use replies::Reply;
use rounding::PageRange;

#[unsafe(no_mangle)]
pub extern "C" fn ronakvesh_page_round_up(addr: u64) -> Reply
    ensures { result ≡ reply_of (within64 (up addr)) }
{
    interface::pages::ronakvesh_page_round_up(addr)
}

#[unsafe(no_mangle)]
pub extern "C" fn ronakvesh_page_round_down(addr: u64) -> u64
    ensures { result ≡ down addr }
{
    interface::pages::ronakvesh_page_round_down(addr)
}

#[unsafe(no_mangle)]
pub extern "C" fn ronakvesh_page_range(va: u64, size: u64) -> PageRange
    ensures { Covers va size result }
{
    interface::pages::ronakvesh_page_range(va, size)
}
