// Words and marks by number, levels, and the lowest free mark.
ghost use Rattle.std.specs.Prelude.{◌≡◌, ◌<◌, ◌≤◌, ◌^◌};
ghost use Rattle.store.specs.Store.{word, mark};
ghost use Rattle.store.specs.Level.{level};
ghost use Rattle.store.specs.Count.{lowest};

// The mark at i, or 0 past the end, as `mark` says; every caller takes a missing mark for a free one. `word_at` is no twin: it answers
// in the width of a word, and a generic of both would be longer than both.
pub fn mark_at(marks: &[u32], i: usize) -> usize
    ensures { (result ≡ mark marks.now i) × (result < 2 ^ 32) }
{
    marks.get(i).map_or(0, |m| *m as usize)
}

// Word w, or 0 past the end, as `word` says: a missing word is one that holds nothing.
pub fn word_at(words: &[u64], w: usize) -> u64
    ensures { result ≡ word words.now w }
{
    words.get(w).copied().unwrap_or(0)
}

// The level of table t by the marks, 3 for none, as `level` says. A mark is a number that the caller lends, and a table is named by its
// number in entries and marks, which the machine and C read.
#[tactic(auto, unfolding(crate::specs::Level::level, crate::specs::Level::climb))]
pub fn level_of(tmarks: &[u32], t: usize) -> usize
    ensures { result ≡ level tmarks.now t }
{
    match mark_at(tmarks, t) {
        0 => 3,
        1 => 2,
        m => match mark_at(tmarks, (m - 2) / 512) {
            0 => 3,
            1 => 1,
            m1 => match mark_at(tmarks, (m1 - 2) / 512) {
                1 => 0,
                _ => 3,
            },
        },
    }
}

// The lowest table or frame whose mark is 0, or their number where none is, as `lowest` says: so both ends of a search are
// numbers of the same kind. The marks are in no order, so no search can halve them.
pub fn lowest_free(marks: &[u32]) -> usize
    ensures { result ≡ lowest marks.now }
{
    marks.iter().position(|m| *m == 0).unwrap_or(marks.len())
}

// The same where it is known that none below from is free.
#[tactic(auto, using(crate::proofs::Free::lowest_behind, crate::proofs::Free::lowest_le))]
pub fn lowest_from(marks: &[u32], from: usize) -> usize
    requires { from ≤ lowest marks.now }
    ensures { result ≡ lowest marks.now }
{
    from + lowest_free(&marks[from..])
}
