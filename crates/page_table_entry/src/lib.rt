// Page-table entries, after page_table_entry.rs.
// An entry is built only from permissions up to 1023, else 8, and from a frame below 2^56, else 9.
#![tactic(auto)]

ghost use Rattle.std.specs.Prelude.{◌≡◌, ◌<◌};
ghost use Rattle.page_table_entry.specs.Layout.{bit_v, bit_r, bit_w, bit_x, bit_u, has, leaf, flags, frame_of};
ghost use Rattle.page_table_entry.specs.Change.{WithBit};
ghost use Rattle.page_table_entry.specs.Built.{Written, Named, entry_said};

use address::PhysicalAddress;
use refusal::Refusal;

const BIT_V: u64 = 0;

const BIT_R: u64 = 1;

const BIT_W: u64 = 2;

const BIT_X: u64 = 3;

const BIT_U: u64 = 4;

const FLAGS: u64 = 0x3FF;

const FRAME_NUMBER: u64 = 0xFFF_FFFF_FFFF;

const PAST_FRAMES: u64 = 1 << 56;

#[derive(Clone, Copy)]
pub struct PageTableEntry(pub u64);

// Each function here has the Rust's name, which C calls; `has` and `with` do the work on a bit, and `From` would say `new` twice.
impl PageTableEntry {
    pub fn new(addr: u64) -> Self
        ensures { result.0 ≡ addr }
    {
        Self(addr)
    }

    pub fn as_usize(self) -> u64
        ensures { result ≡ self.0 }
    {
        self.0
    }

    // Whether bit `bit` is 1.
    fn has(self, bit: u64) -> bool
        requires { bit < 64 }
        ensures { result ≡ has bit self.0 }
    {
        (self.0 >> bit) & 1 == 1
    }

    // The same entry with v for bit `bit`.
    fn with(self, bit: u64, v: u64) -> Self
        requires { (bit < 64) × (v < 2) }
        ensures { WithBit bit v self.0 result.0 }
    {
        Self((self.0 & !(1 << bit)) | (v << bit))
    }

    pub fn is_valid(self) -> bool
        ensures { result ≡ has bit_v self.0 }
    {
        self.has(BIT_V)
    }

    pub fn is_user(self) -> bool
        ensures { result ≡ has bit_u self.0 }
    {
        self.has(BIT_U)
    }

    pub fn is_read(self) -> bool
        ensures { result ≡ has bit_r self.0 }
    {
        self.has(BIT_R)
    }

    pub fn is_write(self) -> bool
        ensures { result ≡ has bit_w self.0 }
    {
        self.has(BIT_W)
    }

    pub fn is_execute(self) -> bool
        ensures { result ≡ has bit_x self.0 }
    {
        self.has(BIT_X)
    }

    pub fn is_leaf(self) -> bool
        ensures { result ≡ leaf self.0 }
    {
        self.is_read() || self.is_write() || self.is_execute()
    }

    pub fn add_valid_bit(self) -> Self
        ensures { WithBit bit_v 1 self.0 result.0 }
    {
        self.with(BIT_V, 1)
    }

    pub fn add_user_bit(self) -> Self
        ensures { WithBit bit_u 1 self.0 result.0 }
    {
        self.with(BIT_U, 1)
    }

    pub fn rm_user_bit(self) -> Self
        ensures { WithBit bit_u 0 self.0 result.0 }
    {
        self.with(BIT_U, 0)
    }

    // The address of the frame that the entry names; bits 54 to 63 are no part of it.
    pub fn as_pagetable(self) -> PhysicalAddress
        ensures { result.0 ≡ frame_of self.0 }
    {
        PhysicalAddress(((self.0 >> 10) & FRAME_NUMBER) << 12)
    }

    // The entry that names the frame of pa and has no flag; or 9.
    pub fn as_pte(pa: PhysicalAddress) -> Result<Self, Refusal>
        ensures { Named pa.0 (entry_said result) }
    {
        if pa.0 >= PAST_FRAMES {
            return Err(Refusal::FrameTooHigh);
        }
        Ok(Self((pa.0 >> 12) << 10))
    }

    pub fn as_flags(self) -> u64
        ensures { result ≡ flags self.0 }
    {
        self.0 & FLAGS
    }

    pub fn write_zero() -> Self
        ensures { result.0 ≡ 0 }
    {
        Self(0)
    }

    // The entry that names the frame of pa, with the permissions and V; or 8, or 9.
    pub fn write_perm(pa: PhysicalAddress, perm: u64) -> Result<Self, Refusal>
        ensures { Written pa.0 perm (entry_said result) }
    {
        if perm > FLAGS {
            return Err(Refusal::Permissions);
        }
        let e = Self::as_pte(pa)?;
        Ok(Self(e.0 | perm).add_valid_bit())
    }
}
