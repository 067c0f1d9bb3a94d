// Bytes from a process to the kernel and back, after `copy_in` and `copy_out` of page_table.rs: judged whole, then done. They share their
// judge; a root and an address are C's two numbers, which are judged together and then read apart.
ghost use Rattle.store.specs.Store.{store_of, seen};
ghost use Rattle.copies.specs.InOut.{In, Out};

use super::{bytes as user, needed};
use address::VirtualAddress;
use refusal::Refusal;
use store::Store;

// The bytes from va on go to the buffer, as many as it is long. The value is 0, as `In` says.
pub fn copy_in(store: &Store, root: u64, va: VirtualAddress, dst: &mut [u8]) -> Result<u64, Refusal>
    ensures { In (seen store.now) root va.0 dst.old result dst.new }
{
    needed::judge_copy(store, root, va.0, dst.len())?;
    user::read_bytes(store, root as usize, va.0, dst);
    Ok(0)
}

// The source goes to the bytes from va on. The value is 0, as `Out` says; only the bytes are lent for writing (docs/DECISIONS.md, 42).
pub fn copy_out(
    words: &[u64],
    tmarks: &[u32],
    bytes: &mut [u8],
    fmarks: &[u32],
    root: u64,
    va: VirtualAddress,
    src: &[u8],
) -> Result<u64, Refusal>
    ensures { Out
        (store_of words.now tmarks.now bytes.old fmarks.now) root va.0 src.now result
        (store_of words.now tmarks.now bytes.new fmarks.now) }
{
    let store = Store {
        words,
        tmarks,
        bytes,
        fmarks,
    };
    needed::judge_copy(&store, root, va.0, src.len())?;
    user::write_bytes(words, tmarks, bytes, fmarks, root as usize, va.0, src);
    Ok(0)
}
