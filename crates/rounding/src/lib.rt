// Rounding to pages, after mapping/mod.rs, and the pages that a range of bytes covers.
#![tactic(auto)]

ghost use Rattle.std.specs.Prelude.{◌≡◌};
ghost use Rattle.address.specs.Page.{down, up};
ghost use Rattle.address.specs.Answer.{within64, number_said};
ghost use Rattle.rounding.specs.Range.{Covers};

use address::{PGSIZE, VirtualAddress};
use refusal::Refusal;

const OFFSET: u64 = PGSIZE - 1;

// Pages from the first up to, not including, the end.
#[repr(C)]
#[derive(Drop)]
pub struct PageRange {
    pub first: u64,
    pub end: u64,
}

// Both are those of address, under the names of mapping/mod.rs that C calls.
pub fn page_round_up(addr: u64) -> Result<u64, Refusal>
    ensures { number_said result ≡ within64 (up addr) }
{
    address::round_up(addr)
}

pub fn page_round_down(addr: u64) -> u64
    ensures { result ≡ down addr }
{
    address::round_down(addr)
}

// The pages that size bytes from va cover. Whole pages and the bytes past them are added apart, so that nothing wraps. An address and a size
// are what C asks with; the range is what they become.
pub fn page_range(va: VirtualAddress, size: u64) -> PageRange
    ensures { Covers va.0 size result }
{
    let first = va.0 / PGSIZE;
    let over = va.0 % PGSIZE + size % PGSIZE + OFFSET;
    PageRange {
        first,
        end: first + size / PGSIZE + over / PGSIZE,
    }
}
