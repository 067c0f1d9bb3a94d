// Bytes of a root by their addresses: read, and written, a page's part at a time.
ghost use Rattle.std.specs.Prelude.{◌≡◌, length};
ghost use Rattle.store.specs.Store.{store_of, seen};
ghost use Rattle.copies.specs.Bytes.{IsPlace, Placed, bytes_at, written};
ghost use Rattle.copies.specs.Needed.{CopyReady};

use store::Store;

// The number among the frame bytes of the byte at address a.
pub fn place(words: &[u64], root: usize, a: u64) -> usize
    requires { Placed words.now root a }
    ensures { IsPlace words.now root a result }
{
    let e = walk::slot_word(words, walk::slot_of(words, root, (a / 4096) as usize));
    4096 * ((e / 1024) as usize - 0x11_0000) + (a % 4096) as usize
}

// The bytes from va on go to the buffer. Root and address are those that were judged together, by `judge_copy`.
pub fn read_bytes(store: &Store, root: usize, va: u64, dst: &mut [u8])
    requires { CopyReady (seen store.now) root va (length dst.old) }
    ensures { dst.new ≡ bytes_at (seen store.now) root va (length dst.old) }
{
    let mut i = 0;
    // No `for`: a part ends with its page, so the first is shorter than those behind it.
    while i < dst.len() {
        let a = va + (i as u64);
        let k = (4096 - (a % 4096) as usize).min(dst.len() - i);
        let from = place(store.words, root, a);
        store::copy_bytes(&mut dst[i..i + k], &store.bytes[from..from + k]);
        i += k;
    }
}

// The source goes to the bytes from va on. No twin to join with `read_bytes`: which side is lent for writing differs, and with it what a
// closure could take; only the bytes are lent for writing (docs/DECISIONS.md, 42).
pub fn write_bytes(
    words: &[u64],
    tmarks: &[u32],
    bytes: &mut [u8],
    fmarks: &[u32],
    root: usize,
    va: u64,
    src: &[u8],
)
    requires { CopyReady (store_of words.now tmarks.now bytes.old fmarks.now) root va (length src.now) }
    ensures { bytes.new ≡ written (store_of words.now tmarks.now bytes.old fmarks.now) root va src.now bytes.old }
{
    let mut i = 0;
    // No `for`: a part ends with its page, so the first is shorter than those behind it.
    while i < src.len() {
        let a = va + (i as u64);
        let k = (4096 - (a % 4096) as usize).min(src.len() - i);
        let to = place(words, root, a);
        store::copy_bytes(&mut bytes[to..to + k], &src[i..i + k]);
        i += k;
    }
}
