// The store that every call works on: four lent slices in place of the kernel's boxes and raw pages.
// Its sizes, marks and levels, the lowest free table or frame, how many are free, set-up, and bytes copied.
#![tactic(auto)]

mod copy;
mod count;
mod marks;

ghost use Rattle.store.specs.Says.{Says};
ghost use Rattle.store.specs.Store.{store_of, seen, Sized};
ghost use Rattle.store.specs.SetUp.{SetUp};

pub use copy::copy_bytes;
pub use count::{count_free, enough_free};
pub use marks::{level_of, lowest_free, lowest_from, mark_at, word_at};
use refusal::Refusal;

// The four slices as a call reads them. C lends them apart, each with its length; a call that writes takes them apart too, since C lends
// it some for reading (docs/DECISIONS.md, 42).
#[derive(Clone, Copy)]
pub struct Store<'a> {
    pub words: &'a [u64],
    pub tmarks: &'a [u32],
    pub bytes: &'a [u8],
    pub fmarks: &'a [u32],
}

impl Store<'_> {
    // Whether T is 1 to 512, F is 1 to 4,096, and the other two slices have exactly their lengths.
    pub fn sized(&self) -> bool
        ensures { Says result (Sized (seen self.now)) }
    {
        let t = self.tmarks.len();
        let f = self.fmarks.len();
        1 <= t
            && t <= 512
            && 1 <= f
            && f <= 4096
            && self.words.len() == 512 * t
            && self.bytes.len() == 4096 * f
    }
}

// Zeros to all four slices; refused only for their sizes. The value is 0, as `SetUp` says.
pub fn set_up(
    words: &mut [u64],
    tmarks: &mut [u32],
    bytes: &mut [u8],
    fmarks: &mut [u32],
) -> Result<u64, Refusal>
    ensures { SetUp
        (store_of words.old tmarks.old bytes.old fmarks.old) result
        (store_of words.new tmarks.new bytes.new fmarks.new) }
{
    let store = Store {
        words,
        tmarks,
        bytes,
        fmarks,
    };
    if !store.sized() {
        return Err(Refusal::Sizes);
    }
    words.fill(0);
    tmarks.fill(0);
    bytes.fill(0);
    fmarks.fill(0);
    Ok(0)
}
