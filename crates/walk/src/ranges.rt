// How many pages of a range have a level-0 word with certain bits: a missing group or block is stepped over whole, and the words
// of a table are counted as one part.
ghost use Rattle.std.specs.Prelude.{◌≡◌, ◌==◌, ◌+◌, ◌*◌, ◌/◌, ◌^◌, ◌<◌, ◌≤◌, bit_and, count_by};
ghost use Rattle.well_formed.specs.Scan.{Over};
ghost use Rattle.walk.specs.Missing.{entry_under};
ghost use Rattle.walk.specs.Ranges.{alike, PagesAlike, page_under};

use super::bits::Bits;
use super::root_pages::RootPages;
use super::runs::run_of;
use super::steps::{slot_in, slot_word};

// How many words have these bits. They are a mask and a value, and not a closure: promises of judges speak of both (`PagesAlike`).
fn count_part(words: &[u64], bits: Bits) -> usize
    ensures { result ≡ count_by (λ x. bit_and x bits.mask == bits.value) words.now }
{
    let mut n: usize = 0;
    for x in words {
        if bits.matches(*x) {
            n += 1;
        }
    }
    n
}

// The same; for V alone the numbers are written out, for a shorter loop.
fn count_bits(words: &[u64], bits: Bits) -> usize
    ensures { result ≡ count_by (λ x. bit_and x bits.mask == bits.value) words.now }
{
    if bits.mask == 1 && bits.value == 1 {
        return count_part(words, Bits::VALID);
    }
    count_part(words, bits)
}

// How many pages from first up to end of one block do, where e is its entry; of several blocks, where it is 0.
// The ends are a part of a `RootPages`, by an entry and not by a root.
fn count_block(words: &[u64], e: u64, first: usize, end: usize, bits: Bits) -> usize
    requires { (first ≤ end) × (0x4000_0000 ≤ e → end ≤ 512 * (first / 512) + 512) }
    ensures { Over (alike bits.mask bits.value (entry_under words.now e)) first end result }
{
    if e < 0x4000_0000 {
        return 0;
    }
    let from = 512 * ((e / 1024) as usize - 0x10_0000) + first % 512;
    let a = from.min(words.len());
    let b = (from + (end - first)).min(words.len());
    count_bits(&words[a..b], bits)
}

// How many pages from first up to end of one group do, where top is the root's entry of it.
// Its loop and that of `count_pages` are no twins to join: they go over other steps and add other counts, and a closure for each would be
// longer than both.
fn count_group(words: &[u64], top: u64, first: usize, end: usize, bits: Bits) -> usize
    requires { (first ≤ end) × (end ≤ 2 ^ 26) }
    ensures { Over (alike bits.mask bits.value (page_under words.now top)) first end result }
{
    if top == 0 {
        return 0;
    }
    let mut n: usize = 0;
    let mut page = first;
    // No `for`: a step is as long as `run_of` answers.
    while page < end {
        let m = slot_in(top, page / 512 % 512);
        let next = (512 * (page / 512 + run_of(words, m))).min(end);
        let e = slot_word(words, m);
        n += count_block(words, e, page, next, bits);
        page = next;
    }
    n
}

// How many of these pages have a level-0 word with these bits.
pub fn count_pages(words: &[u64], pages: RootPages, bits: Bits) -> usize
    ensures { PagesAlike words.now pages.root pages.first pages.end bits.mask bits.value result }
{
    let end = pages.end;
    let mut n: usize = 0;
    let mut page = pages.first;
    // No `for`: a step is as long as `run_of` answers.
    while page < end {
        let m = 512 * pages.root + page / 512 / 512 + 2;
        let next = (262144 * (page / 512 / 512 + run_of(words, m))).min(end);
        let top = slot_word(words, m);
        n += count_group(words, top, page, next, bits);
        page = next;
    }
    n
}
