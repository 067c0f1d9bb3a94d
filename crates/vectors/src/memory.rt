// The store that the rows work on, and the bytes that each call is lent beside it.
use refusal::Refusal;

// The largest prime below 2^32.
const PRIME: u64 = 0xFFFF_FFFB;

const FACTOR: u64 = 0x100_0193;

#[derive(Drop)]
pub struct Memory {
    pub words: [u64; 4096],
    pub tmarks: [u32; 8],
    pub bytes: [u8; 32768],
    pub fmarks: [u32; 8],
    pub lent: [u8; 8192],
}

// The digest of what came before, with one number more.
fn mixed(digest: u64, number: u64) -> u64 {
    ((digest % PRIME) * FACTOR + number % PRIME) % PRIME
}

// The same with a byte.
fn with_byte(digest: u64, byte: &u8) -> u64 {
    mixed(digest, u64::from(*byte))
}

impl Memory {
    pub fn new() -> Self {
        Memory {
            words: [0u64; 4096],
            tmarks: [0u32; 8],
            bytes: [0u8; 32768],
            fmarks: [0u32; 8],
            lent: [0u8; 8192],
        }
    }

    // Makes the store a fresh one.
    pub fn set_up(&mut self) -> Result<u64, Refusal> {
        store::set_up(
            &mut self.words,
            &mut self.tmarks,
            &mut self.bytes,
            &mut self.fmarks,
        )
    }

    // Makes lent byte i be i modulo 251, and 1.
    pub fn lend(&mut self) {
        for (i, byte) in self.lent.iter_mut().enumerate() {
            *byte = (i % 251 + 1) as u8;
        }
    }

    // From 1 on, each table word, frame byte and lent byte: the digest times FACTOR, and the number, modulo PRIME. One chain over all three
    // would test for each number which part it is in.
    pub fn digest(&self) -> u64 {
        let words = self
            .words
            .iter()
            .fold(1, |digest, word| mixed(digest, *word));
        let bytes = self.bytes.iter().fold(words, with_byte);
        self.lent.iter().fold(bytes, with_byte)
    }
}
