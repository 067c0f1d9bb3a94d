// The words of tables of level 2 and 1: W3.
ghost use Rattle.std.specs.Prelude.{◌+◌, ◌*◌, ◌≤◌, ◌<◌, ◌≡◌, ◌⊎◌, length};
ghost use Rattle.store.specs.Says.{Says};
ghost use Rattle.store.specs.Store.{word};
ghost use Rattle.store.specs.WellFormed.{Points};
ghost use Rattle.well_formed.specs.Scan.{Pointers, Root, PointsTo};

use super::scan;

// The word that points to table 0; the next table's is 1024 more.
const POINTER: u64 = 0x4000_0001;

// The table that x points to, as its number alone has it, or None where x is no pointer.
pub fn pointed_table(x: u64) -> Option<usize>
    ensures { PointsTo x result }
{
    let d = x.checked_sub(POINTER)?;
    (d % 1024 == 0).then_some((d / 1024) as usize)
}

// Whether word w is 0, or points to a table whose mark names w. Tables are numbers, since words and marks name them so.
fn points_ok(words: &[u64], tmarks: &[u32], w: usize) -> bool
    requires { w < length words.now }
    ensures { Says result ((word words.now w ≡ 0) ⊎ Points words.now tmarks.now w) }
{
    let x = words[w];
    x == 0 || pointed_table(x).is_some_and(|t| store::mark_at(tmarks, t) == w + 2)
}

fn pointers_few(words: &[u64], tmarks: &[u32], a: usize) -> bool
    requires { a + 32 ≤ length words.now }
    ensures { Says result (Pointers words.now tmarks.now a (a + 32)) }
{
    scan::zeros(&words[a..a + 32]) || (a..a + 32).all(|w| points_ok(words, tmarks, w))
}

// The words of n parts of 32 words, from word a on: 32 at a time, since most of them are 0.
pub fn pointers(words: &[u64], tmarks: &[u32], a: usize, n: usize) -> bool
    requires { a + 32 * n ≤ length words.now }
    ensures { Says result (Pointers words.now tmarks.now a (a + 32 * n)) }
{
    (0..n).all(|i| pointers_few(words, tmarks, a + 32 * i))
}

// Whether the words of the root that starts at a are pointers, and 0 from entry 256 on.
pub fn root_ok(words: &[u64], tmarks: &[u32], a: usize) -> bool
    requires { a + 512 ≤ length words.now }
    ensures { Says result (Root words.now tmarks.now a) }
{
    pointers(words, tmarks, a, 8) && scan::zeros(&words[a + 256..a + 512])
}
