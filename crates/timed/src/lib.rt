// No part of the library: what bench/ times and no call exports by itself, the judge's two questions about a range of pages.
#![tactic(auto)]

use walk::{Bits, RootPages};

// The tables that the pages from first up to end of a root lack, or 0 where one of them is mapped or there is no such range.
// It is called from C, so the range comes as numbers and 0 stands for no answer.
#[unsafe(no_mangle)]
pub extern "C" fn ronakvesh_timed_range(
    words: &[u64],
    root: usize,
    first: usize,
    end: usize,
) -> u64 {
    if 512 <= root {
        return 0;
    }
    if end < first {
        return 0;
    }
    if 0x400_0000 < end {
        return 0;
    }
    let pages = RootPages { root, first, end };
    if walk::count_pages(words, pages, Bits::VALID) != 0 {
        return 0;
    }
    walk::missing_tables(words, pages) as u64
}
