// A result as a reply: two numbers, whatever kind of value it has.
ghost use Rattle.std.specs.Prelude.{◌≡◌, ℕ};
ghost use Rattle.address.specs.Answer.{refused, said};
ghost use Rattle.replies.specs.Reply.{reply_of};

use address::{Address, PhysicalAddress, VirtualAddress};
use page_table_entry::PageTableEntry;
use refusal::Refusal;
use strings::StrRead;

// An answer as C reads it: number 0 and the value, or the number of the refusal and 0. C has no `Result`.
#[repr(C)]
#[derive(Clone, Copy, PartialEq, Eq)]
pub struct Reply {
    pub number: u64,
    pub value: u64,
}

impl Reply {
    // A refusal with this number, whatever number it is.
    #[tactic(auto, unfolding(crate::specs::Reply::reply_of))]
    pub fn refused(number: u64) -> Reply
        ensures { result ≡ reply_of (refused number) }
    {
        Reply { number, value: 0 }
    }
}

// What is a number in a reply.
pub trait Value {
    ghost as_number: { Self → ℕ };

    fn value(self) -> u64
        ensures { result ≡ as_number self };
}

impl Value for u64 {
    ghost as_number = { λ n. n };

    fn value(self) -> u64 {
        self
    }
}

impl Value for VirtualAddress {
    ghost as_number = { λ a. a.0 };

    fn value(self) -> u64 {
        self.as_usize()
    }
}

impl Value for PhysicalAddress {
    ghost as_number = { λ a. a.0 };

    fn value(self) -> u64 {
        self.as_usize()
    }
}

impl Value for PageTableEntry {
    ghost as_number = { λ e. e.0 };

    fn value(self) -> u64 {
        self.as_usize()
    }
}

// Of a text that was read its length: whether a zero was met is whether it is less than the buffer is long.
impl Value for StrRead {
    ghost as_number = { λ r. r.bytes };

    fn value(self) -> u64 {
        self.bytes as u64
    }
}

impl<V: Value> From<Result<V, Refusal>> for Reply {
    ghost from_gives = { λ answer r. r ≡ reply_of (said V.as_number answer) };

    #[tactic(auto, unfolding(crate::specs::Reply::reply_of, address::specs::Answer::said))]
    fn from(answer: Result<V, Refusal>) -> Reply {
        match answer {
            Ok(v) => {
                let value = v.value();
                Reply { number: 0, value }
            }
            Err(refusal) => Reply::refused(refusal.number()),
        }
    }
}
