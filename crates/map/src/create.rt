// A root, after `uvmcreate` of page_table.rs.
ghost use Rattle.store.specs.Store.{store_of};
ghost use Rattle.map.specs.Create.{Create};

use refusal::Refusal;
use store::Store;

// Makes the lowest free table a root without pages, and answers its number. Only the marks of tables are
// lent for writing (docs/DECISIONS.md, 42).
#[tactic(auto, using(crate::proofs::CreateLaws::not_judged))]
pub fn uvmcreate(
    words: &[u64],
    tmarks: &mut [u32],
    bytes: &[u8],
    fmarks: &[u32],
) -> Result<u64, Refusal>
    ensures { Create
        (store_of words.now tmarks.old bytes.now fmarks.now) result
        (store_of words.now tmarks.new bytes.now fmarks.now) }
{
    let store = Store {
        words,
        tmarks,
        bytes,
        fmarks,
    };
    well_formed::judge_store(&store)?;
    if !store::enough_free(tmarks, 1) {
        return Err(Refusal::TooFewTables);
    }
    let t = store::lowest_free(tmarks);
    enter::put_mark(tmarks, t, 1);
    Ok(t as u64)
}
