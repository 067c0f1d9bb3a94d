// The helpers of rounding, and the pages of a range.
ghost use Rattle.std.specs.Prelude.{◌≡◌};
ghost use Rattle.address.specs.Page.{down, up};
ghost use Rattle.address.specs.Answer.{within64};
ghost use Rattle.rounding.specs.Range.{Covers};
ghost use Rattle.replies.specs.Reply.{reply_of};

use address::VirtualAddress;
use replies::Reply;
use rounding::PageRange;

pub fn ronakvesh_page_round_up(addr: u64) -> Reply
    ensures { result ≡ reply_of (within64 (up addr)) }
{
    Reply::from(rounding::page_round_up(addr))
}

pub fn ronakvesh_page_round_down(addr: u64) -> u64
    ensures { result ≡ down addr }
{
    rounding::page_round_down(addr)
}

pub fn ronakvesh_page_range(va: u64, size: u64) -> PageRange
    ensures { Covers va size result }
{
    rounding::page_range(VirtualAddress(va), size)
}
