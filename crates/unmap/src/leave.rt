// The work of unmapping, which cannot fail: words become 0, and pool frames are given back.
ghost use Rattle.std.specs.Prelude.{◌≡◌, ◌+◌, ◌<◌, ◌≤◌, length};
ghost use Rattle.store.specs.Store.{Store, store_of};
ghost use Rattle.unmap.specs.Leave.{given_back, leave_run, leave_pages, FramesBecome, CanLeave};

// Entry e has gone: the pool frame that it names, if it names one, is free again. A frame is a number, since entries name it so. By
// `checked_sub` a foreign frame took 2.6 times as long.
fn give_back(fmarks: &mut [u32], e: u64)
    ensures { fmarks.new ≡ given_back fmarks.old e }
{
    let frame = (e / 1024) as usize;
    if frame >= 0x11_0000 {
        enter::put_mark(fmarks, frame - 0x11_0000, 0);
    }
}

// The words of n slots from slot m on become 0; with freeing, which is C's flag, their pool frames are given back. Each word goes before
// its frame: no frame is free while a word still names it.
fn leave_run(words: &mut [u64], fmarks: &mut [u32], m: usize, n: usize, freeing: bool)
    requires { (2 ≤ m) × (m + n ≤ 2 + length words.old) }
    ensures { FramesBecome words.old fmarks.old (λ (s : Store). leave_run s m n freeing) words.new fmarks.new }
{
    let w = m - 2;
    for word in &mut words[w..w + n] {
        let e = *word;
        *word = 0;
        if freeing {
            give_back(fmarks, e);
        }
    }
}

// n pages from first on leave the root, block by block. Marks of tables and frames' bytes are lent so that the promise can speak of the
// whole store. The slices come apart, since only two of them are lent for writing (docs/DECISIONS.md, 42). A step of `enter_pages` writes
// other slices, so one loop for both would take a closure and have to promise what that does to the whole store.
pub fn leave_pages(
    words: &mut [u64],
    tmarks: &[u32],
    bytes: &[u8],
    fmarks: &mut [u32],
    root: usize,
    first: usize,
    n: usize,
    freeing: bool,
)
    requires { CanLeave (store_of words.old tmarks.now bytes.now fmarks.old) root first n freeing }
    ensures { store_of words.new tmarks.now bytes.now fmarks.new
        ≡ leave_pages (store_of words.old tmarks.now bytes.now fmarks.old) root first n freeing }
{
    let mut i = 0;
    // No `for`: a step takes the pages that are left of a block, and the first and the last block may be cut.
    while i < n {
        let page = first + i;
        let k = (512 - page % 512).min(n - i);
        let m = walk::slot_of(words, root, page);
        leave_run(words, fmarks, m, k, freeing);
        i += k;
    }
}
