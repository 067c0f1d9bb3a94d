// The words of every table, by its level, which is worked out once a table: W1, W3 and W4.
ghost use Rattle.std.specs.Prelude.{◌+◌, ◌*◌, ◌≤◌, ◌≡◌, length};
ghost use Rattle.well_formed.specs.Scan.{WordsOk, Finds, leaf_windowed};

use super::{leaves, pointers, scan};

// The words of table t. The level is that of `level_of`, a number up to 3.
fn table_words_ok(words: &[u64], tmarks: &[u32], t: usize) -> Option<usize>
    requires { 512 * t + 512 ≤ length words.now }
    ensures { Finds (WordsOk words.now tmarks.now (512 * t) (512 * t + 512)) (leaf_windowed words.now tmarks.now) (512 * t) (512 * t + 512) result }
{
    let a = 512 * t;
    let table = &words[a..a + 512];
    match store::level_of(tmarks, t) {
        0 => leaves::leaves(table),
        1 => pointers::pointers(words, tmarks, a, 16).then_some(0),
        2 => pointers::root_ok(words, tmarks, a).then_some(0),
        _ if store::mark_at(tmarks, t) == 0 => scan::zeros(table).then_some(0),
        _ => Some(0),
    }
}

pub fn words_ok(words: &[u64], tmarks: &[u32]) -> Option<usize>
    requires { length words.now ≡ 512 * length tmarks.now }
    ensures { Finds (WordsOk words.now tmarks.now 0 (length words.now)) (leaf_windowed words.now tmarks.now) 0 (length words.now) result }
{
    let mut held: usize = 0;
    for t in 0..tmarks.len() {
        held += table_words_ok(words, tmarks, t)?;
    }
    Some(held)
}
