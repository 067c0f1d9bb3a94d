// The work of map, which cannot fail: tables are hung where they are missing, and pages get their entries.
ghost use Rattle.std.specs.Prelude.{◌≡◌, ◌+◌, ◌*◌, ◌^◌, ◌<◌, ◌≤◌, length, set};
ghost use Rattle.store.specs.Store.{Store, store_of};
ghost use Rattle.enter.specs.Enter.{put_slot, put_run, Becomes, tabled, enter_run, enter_pages, CanEnter, Hangable, RunFits, hang as Enter·hang};

// v goes into slot m; slots 0 and 1 are no words, nor are those past the end. `get_mut` would save no line, here or
// below. A slot is a number, as marks and walks have it, and means nothing without its words.
pub fn put_slot(words: &mut [u64], m: usize, v: u64)
    ensures { words.new ≡ put_slot words.old m v }
{
    if m < 2 {
        return;
    }
    let w = m - 2;
    if w < words.len() {
        words[w] = v;
    }
}

// Mark m goes to table t, where there is one. No twin of `put_slot`, which starts at slot 2.
pub fn put_mark(tmarks: &mut [u32], t: usize, m: u32)
    ensures { tmarks.new ≡ set tmarks.old t m }
{
    if t < tmarks.len() {
        tmarks[t] = m;
    }
}

// Where slot m holds 0, the lowest free table is hung there: its number goes into the word, and the slot's into its mark, since the
// machine and C read them so. Only words and marks are lent, here and below, so the contract alone says that bytes stay.
fn hang(words: &mut [u64], tmarks: &mut [u32], m: usize)
    requires { (length tmarks.old ≤ 512) × (m < 2 ^ 32) }
    ensures { Becomes words.old tmarks.old (λ (s : Store). Enter·hang s m) words.new tmarks.new }
{
    if walk::slot_word(words, m) != 0 {
        return;
    }
    let t = store::lowest_free(tmarks);
    put_slot(words, m, 0x4000_0001 + 1024 * (t as u64));
    put_mark(tmarks, t, m as u32);
}

// The page's level-1 table and then its level-0 table are hung, where they are missing.
pub fn hang_tables(words: &mut [u64], tmarks: &mut [u32], root: usize, page: usize)
    requires { Hangable words.old tmarks.old root page }
    ensures { Becomes words.old tmarks.old (λ (s : Store). tabled s root page) words.new tmarks.new }
{
    let top = 512 * root + page / 512 / 512 + 2;
    hang(words, tmarks, top);
    let middle = walk::slot_in(walk::slot_word(words, top), page / 512 % 512);
    hang(words, tmarks, middle);
}

// n slots from slot m on get e, e + 1024, .. No twin of unmapping's `leave_run`, which writes no numbers and gives frames back.
fn put_run(words: &mut [u64], m: usize, n: usize, e: u64)
    requires { (2 ≤ m) × (m + n ≤ 2 + length words.old) × (e + 1024 * n < 2 ^ 64) }
    ensures { words.new ≡ put_run words.old m n e }
{
    let w = m - 2;
    for i in 0..n {
        words[w + i] = e + 1024 * (i as u64);
    }
}

// n pages of one block, from page on, get the entries e, e + 1024, ..: one walk for all of them.
fn enter_run(words: &mut [u64], tmarks: &mut [u32], root: usize, page: usize, n: usize, e: u64)
    requires { RunFits words.old tmarks.old root page n e }
    ensures { Becomes words.old tmarks.old (λ (s : Store). enter_run s root page n e) words.new tmarks.new }
{
    hang_tables(words, tmarks, root, page);
    let m = walk::slot_of(words, root, page);
    put_run(words, m, n, e);
}

// n pages from first on get the entries e, e + 1024, .., block by block. The frames are lent so that the promise can speak of the whole store.
// The slices come apart, since only two of them are lent for writing (docs/DECISIONS.md, 42).
pub fn enter_pages(
    words: &mut [u64],
    tmarks: &mut [u32],
    bytes: &[u8],
    fmarks: &[u32],
    root: usize,
    first: usize,
    n: usize,
    e: u64,
)
    requires { CanEnter (store_of words.old tmarks.old bytes.now fmarks.now) root first n e }
    ensures { store_of words.new tmarks.new bytes.now fmarks.now
        ≡ enter_pages (store_of words.old tmarks.old bytes.now fmarks.now) root first n e }
{
    let mut i = 0;
    // No `for`: a step takes the pages that are left of a block, and the first and the last block may be cut.
    while i < n {
        let page = first + i;
        let k = (512 - page % 512).min(n - i);
        enter_run(words, tmarks, root, page, k, e + 1024 * (i as u64));
        i += k;
    }
}
