// The first page of a process, after `uvm_init` of page_table.rs: judged whole, then done.
ghost use Rattle.std.specs.Prelude.{◌≡◌, ◌<◌, length};
ghost use Rattle.store.specs.Outcome.{Judges};
ghost use Rattle.store.specs.Store.{store_of, seen};
ghost use Rattle.grow.specs.Init.{padded, InitReason, InitReady, Init};

use refusal::Refusal;
use store::Store;
use walk::RootPages;

// Refuses what `judge_root` refuses, a source that does not fit, and page 0 where `judge_fresh` does.
#[tactic(auto, using(crate::proofs::InitReasons::by_root))]
fn judge_init(store: &Store, root: u64, src: &[u8]) -> Result<(), Refusal>
    ensures { Judges
        (InitReason (seen store.now) root src.now)
        (InitReady (seen store.now) root src.now)
        result }
{
    well_formed::judge_root(store, root)?;
    if src.len() >= 4096 {
        return Err(Refusal::LongSource);
    }
    let page_0 = RootPages {
        root: root as usize,
        first: 0,
        end: 1,
    };
    fresh::judge_fresh(store, page_0)
}

// The source, then zeros.
fn write_frame(frame: &mut [u8], src: &[u8])
    requires { (length frame.old ≡ 4096) × (length src.now < 4096) }
    ensures { frame.new ≡ padded src.now }
{
    let n = src.len();
    store::copy_bytes(&mut frame[..n], src);
    frame[n..].fill(0);
}

// Page 0 gets a fresh frame with the source and then zeros. The value is 0, as `Init` says; the slices are C's (docs/DECISIONS.md, 42).
pub fn uvm_init(
    words: &mut [u64],
    tmarks: &mut [u32],
    bytes: &mut [u8],
    fmarks: &mut [u32],
    root: u64,
    src: &[u8],
) -> Result<u64, Refusal>
    ensures { Init
        (store_of words.old tmarks.old bytes.old fmarks.old) root src.now result
        (store_of words.new tmarks.new bytes.new fmarks.new) }
{
    let store = Store {
        words,
        tmarks,
        bytes,
        fmarks,
    };
    judge_init(&store, root, src)?;
    let f = fresh::enter_frame(words, tmarks, fmarks, root as usize, 0, 31, 0);
    let to = 4096 * f;
    write_frame(&mut bytes[to..to + 4096], src);
    Ok(0)
}
