// The marks of tables: W2.
ghost use Rattle.std.specs.Prelude.{ℕ, ◌<◌, length};
ghost use Rattle.store.specs.Says.{Says};
ghost use Rattle.well_formed.specs.Scan.{TableOk};

use super::pointers;

// Only words and marks are lent here and below, and not the whole store, so that the contract alone says that bytes play no part. Its twin
// `frame_ok` asks other things of another kind of mark. A mark below 2 names no word.
fn table_ok(words: &[u64], tmarks: &[u32], t: usize) -> bool
    ensures { Says result (TableOk words.now tmarks.now t) }
{
    let m = store::mark_at(tmarks, t);
    if m < 2 {
        return true;
    }
    if pointers::pointed_table(store::word_at(words, m - 2)) != Some(t) {
        return false;
    }
    let level = store::level_of(tmarks, (m - 2) / 512);
    level == 2 || level == 1
}

pub fn tables_ok(words: &[u64], tmarks: &[u32]) -> bool
    ensures { Says result ((t : ℕ) → t < length tmarks.now → TableOk words.now tmarks.now t) }
{
    (0..tmarks.len()).all(|t| table_ok(words, tmarks, t))
}
