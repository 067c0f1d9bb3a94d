// What a word must have to be counted.
ghost use Rattle.std.specs.Prelude.{◌≡◌, ◌==◌, ◌<◌, bit_and};

// The bits of a word under the mask are the value, which is not 0. No closure: the promises of judges speak of mask and value, and of a
// closure each call would have to prove what it tells.
#[derive(Clone, Copy)]
pub struct Bits {
    pub mask: u64,
    pub value: u64,
    pub ghost some: { 0 < value },
}

impl Bits {
    // Bit 0, which is V.
    pub const VALID: Bits = Bits { mask: 1, value: 1 };

    // Whether a word has them.
    pub fn matches(self, word: u64) -> bool
        ensures { result ≡ (bit_and word self.mask == self.value) }
    {
        word & self.mask == self.value
    }
}
