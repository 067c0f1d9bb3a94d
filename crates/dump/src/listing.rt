// The dump of a root: a table lists its entries upward, and a pointer entry lists its table right after itself.
ghost use Rattle.std.specs.Prelude.{◌^◌, ◌+◌, ◌≤◌, ◌<◌, ◌≡◌, length};
ghost use Rattle.store.specs.Walk.{table_of};
ghost use Rattle.store.specs.Store.{seen};
ghost use Rattle.dump.specs.Dump.{Listed, table, entry_rows, Dumped};

use store::Store;
use text::Text;

// The table that a pointer entry names, as `table_of` says, which has 0 for what lies below the tables: of a well-formed store no entry does.
fn pointed_table(e: u64) -> usize
    ensures { (result ≡ table_of e) × (result < 2 ^ 54) }
{
    let frame = (e / 1024) as usize;
    frame.saturating_sub(0x10_0000)
}

// Lists table t of this level, and answers how many entries are listed by then. The bounds come with the
// recursion: each call hands on smaller ones.
#[cycle(list_entry_list_table)]
fn list_table(words: &[u64], t: usize, level: u64, text: &mut Text<'_>, count: u64) -> u64
    requires t_bound { (t < 2 ^ 54) × (level ≤ 2) }
    requires room { count + length (table words.now level t) < 2 ^ 64 }
    ensures { Listed text.old count (table words.now level t) text.new result }
{
    let mut listed = count;
    for i in 0..512 {
        listed = list_entry(words, t, level, i, text, listed);
    }
    listed
}

// Lists entry i of table t, and the table that it points to.
#[cycle(list_entry_list_table)]
fn list_entry(words: &[u64], t: usize, level: u64, i: usize, text: &mut Text<'_>, count: u64) -> u64
    requires t_bound { (t < 2 ^ 54) × (level ≤ 2) × (i < 512) }
    requires room { count + length (entry_rows words.now level t i) < 2 ^ 64 }
    ensures { Listed text.old count (entry_rows words.now level t i) text.new result }
{
    let e = store::word_at(words, 512 * t + i);
    if e == 0 {
        return count;
    }
    text.put_row(level, i as u64, e);
    if level == 0 {
        return count + 1;
    }
    list_table(words, pointed_table(e), level - 1, text, count + 1)
}

// Lists the tree of a root and then says how many entries it listed, or says why not.
pub fn dump(store: &Store, root: u64, text: &mut Text<'_>)
    ensures { Dumped (seen store.now) root text.old text.new }
{
    match well_formed::judge_root(store, root) {
        Err(refusal) => text.put_answer(Err(refusal)),
        Ok(()) => {
            let count = list_table(store.words, root as usize, 2, text, 0);
            text.put_answer(Ok(count));
        }
    }
}
