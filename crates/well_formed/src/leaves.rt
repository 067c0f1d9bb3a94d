// The words of level-0 tables: W4, but for the marks of pool frames, whose words are counted.
ghost use Rattle.std.specs.Prelude.{◌%◌, ◌≡◌, length};
ghost use Rattle.well_formed.specs.Scan.{Shapes, Finds, windowed};

use super::scan;

// Zero words are the common case, and words of the held window, which have bit 30, are counted only where one has that bit.
fn leaves_few(words: &[u64]) -> Option<usize>
    ensures { Finds (Shapes words.now 0 (length words.now)) (windowed words.now) 0 (length words.now) result }
{
    let x = scan::any(words);
    if x == 0 {
        return Some(0);
    }
    if 0x40_0000_0000_0000 <= x {
        return None;
    }
    if scan::flags(words) % 2 != 0 {
        return None;
    }
    if x / 0x4000_0000 % 2 == 0 {
        return Some(0);
    }
    Some(scan::count_held(words))
}

// 64 words at a time, as arrays, so that the loops know their number: a shorter loop is unrolled on x86-64 and not vectorised. `words_ok` adds
// up in the same way over tables, which are no chunks to it: it needs their numbers.
pub fn leaves(words: &[u64]) -> Option<usize>
    requires { length words.now % 64 ≡ 0 }
    ensures { Finds (Shapes words.now 0 (length words.now)) (windowed words.now) 0 (length words.now) result }
{
    let (parts, _) = words.as_chunks::<64>();
    let mut held: usize = 0;
    for part in parts {
        held += leaves_few(part)?;
    }
    Some(held)
}
