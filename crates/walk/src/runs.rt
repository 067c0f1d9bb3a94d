// Empty slots, 64 at a time, so that a scan of a table steps over them.
ghost use Rattle.walk.specs.Runs.{Run};

// How many slots from slot m on a scan can take as one: 64 empty ones that start at a multiple of 64 words, else 1. Slots 0
// and 1 are no words.
pub fn run_of(words: &[u64], m: usize) -> usize
    ensures { Run words.now m result }
{
    if m < 2 {
        return 1;
    }
    let w = m - 2;
    if w % 64 != 0 {
        return 1;
    }
    if words.len() < 64 {
        return 1;
    }
    if words.len() - 64 < w {
        return 1;
    }
    if words[w] != 0 {
        return 1;
    }
    if !well_formed::zeros(&words[w..w + 64]) {
        return 1;
    }
    64
}
