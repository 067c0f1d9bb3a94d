// How many tables a range of pages lacks, by groups of 262,144 pages and blocks of 512: no walk for a page.
ghost use Rattle.std.specs.Prelude.{◌≡◌, ◌+◌, ◌-◌, ◌*◌, ◌^◌, ◌<◌, ◌≤◌};
ghost use Rattle.store.specs.Count.{zeros, is_zero};
ghost use Rattle.walk.specs.Missing.{entry_in, missing_in, entry_under};

use super::root_pages::RootPages;
use super::steps::{slot_in, slot_word};

// How many of the blocks from first up to end have no table, where top is the root's entry of their group.
// These are ends of blocks, here and below, and not of pages, so they make no `RootPages`.
fn blocks_missing(words: &[u64], top: u64, first: usize, end: usize) -> usize
    requires { first ≤ end }
    ensures { result ≡ zeros (entry_under words.now top) (end - first) first }
{
    let mut n: usize = 0;
    // `filter` and `count` were tried, and took 1.2 times as long.
    for block in first..end {
        let entry = slot_word(words, slot_in(top, block % 512));
        if entry == 0 {
            n += 1;
        }
    }
    n
}

// The tables that group and its blocks from first up to end lack: a group without a table has none for its blocks.
fn group_missing(words: &[u64], root: usize, group: usize, first: usize, end: usize) -> usize
    requires { (root < 512) × (group < 512) × (512 * group ≤ first) × (first ≤ end) × (end ≤ 512 * group + 512) }
    ensures { result ≡ is_zero (entry_in words.now root 0 group) + zeros (entry_in words.now root 1) (end - first) first }
{
    let top = slot_word(words, 512 * root + group + 2);
    if top == 0 {
        return 1 + (end - first);
    }
    blocks_missing(words, top, first, end)
}

// The tables that these pages lack.
pub fn missing_tables(words: &[u64], pages: RootPages) -> usize
    ensures { result ≡ missing_in words.now pages.root pages.first (pages.end - pages.first) }
{
    let first = pages.first;
    let end = pages.end;
    if end <= first {
        return 0;
    }
    let stop = (end - 1) / 512 + 1;
    let mut n: usize = 0;
    let mut block = first / 512;
    for group in first / 512 / 512..(end - 1) / 512 / 512 + 1 {
        let next = (512 * group + 512).min(stop);
        n += group_missing(words, pages.root, group, block, next);
        block = next;
    }
    n
}
