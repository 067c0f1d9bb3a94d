// The two kinds of address, and what both have.
ghost use Rattle.std.specs.Prelude.{◌≡◌, ℕ, ◌+◌, ◌%◌, ltb, eqb};
ghost use Rattle.address.specs.Page.{down, up};
ghost use Rattle.address.specs.Answer.{within64, at_least0, index_at, said, number_said, virtual_said};

use super::{PGSIZE, numbers};
use refusal::Refusal;

const PGSHIFT: u64 = 12;

const PGMASKLEN: u64 = 9;

const PGMASK: u64 = 0x1FF;

// An address of either kind, which is a number of 64 bits. `new` and `as_usize` are the Rust's names and what C calls; `From` would
// say the same twice.
pub trait Address: Copy {
    ghost at: { Self → ℕ };

    fn new(addr: u64) -> Self
        ensures { at result ≡ addr };

    fn as_usize(self) -> u64
        ensures { result ≡ at self };

    fn is_page_aligned(self) -> bool
        ensures { result ≡ eqb (at self % 4096) 0 }
    {
        self.as_usize() % PGSIZE == 0
    }

    #[tactic(auto, unfolding(crate::specs::Answer::said))]
    fn pg_round_up(self) -> Result<Self, Refusal>
        ensures { said at result ≡ within64 (up (at self)) }
    {
        Ok(Self::new(numbers::round_up(self.as_usize())?))
    }

    fn pg_round_down(self) -> Self
        ensures { at result ≡ down (at self) }
    {
        Self::new(numbers::round_down(self.as_usize()))
    }

    fn add_page(self) -> Result<Self, Refusal>
        ensures { said at result ≡ within64 (at self + 4096) }
    {
        self.add_addr(PGSIZE)
    }

    #[tactic(auto, unfolding(crate::specs::Answer::said))]
    fn add_addr(self, addr: u64) -> Result<Self, Refusal>
        ensures { said at result ≡ within64 (at self + addr) }
    {
        Ok(Self::new(numbers::sum(self.as_usize(), addr)?))
    }
}

// Two types of one shape, so that an address of one kind is never taken for the other; what both have stands once, in the trait.
#[derive(Clone, Copy, PartialEq, Eq, PartialOrd, Ord)]
pub struct VirtualAddress(pub u64);

#[derive(Clone, Copy, PartialEq, Eq, PartialOrd, Ord)]
pub struct PhysicalAddress(pub u64);

impl Address for VirtualAddress {
    ghost at = { λ a. a.0 };

    fn new(addr: u64) -> Self {
        Self(addr)
    }

    fn as_usize(self) -> u64 {
        self.0
    }
}

impl Address for PhysicalAddress {
    ghost at = { λ a. a.0 };

    fn new(value: u64) -> Self {
        Self(value)
    }

    fn as_usize(self) -> u64 {
        self.0
    }
}

impl VirtualAddress {
    // Whether this address lies above the other. What the derives say, under the names that C calls.
    pub fn compare(self, other: Self) -> bool
        ensures { result ≡ ltb other.0 self.0 }
    {
        self > other
    }

    pub fn equal(self, other: Self) -> bool
        ensures { result ≡ eqb self.0 other.0 }
    {
        self == other
    }

    // The index at a level: bits 12 to 20 at level 0, 21 to 29 at level 1, 30 to 38 at level 2. A level is a number, since C
    // may ask for any.
    #[tactic(auto, using(crate::proofs::Answers::indexed, crate::proofs::Answers::too_high, crate::proofs::Pages::index_mask), unfolding(crate::specs::Answer::said))]
    pub fn page_num(self, level: u64) -> Result<u64, Refusal>
        ensures { number_said result ≡ index_at level self.0 }
    {
        if level > 2 {
            return Err(Refusal::TooHigh);
        }
        Ok((self.0 >> (PGSHIFT + level * PGMASKLEN)) & PGMASK)
    }

    // `add_addr` of another address, under the name that C calls.
    pub fn add(self, other: Self) -> Result<Self, Refusal>
        ensures { virtual_said result ≡ within64 (self.0 + other.0) }
    {
        self.add_addr(other.0)
    }

    #[tactic(auto, unfolding(crate::specs::Answer::said))]
    pub fn sub(self, other: Self) -> Result<Self, Refusal>
        ensures { virtual_said result ≡ at_least0 self.0 other.0 }
    {
        Ok(Self(numbers::difference(self.0, other.0)?))
    }
}
