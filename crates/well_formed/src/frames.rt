// The marks of frames: W5.
ghost use Rattle.std.specs.Prelude.{ℕ, ◌<◌, length};
ghost use Rattle.store.specs.Says.{Says};
ghost use Rattle.well_formed.specs.Scan.{FrameOk};

// The number of pool frame 0.
const POOL: u64 = 0x11_0000;

// A mark is 0, or names a word: so it stands in what the caller lends.
fn frame_ok(words: &[u64], tmarks: &[u32], fmarks: &[u32], f: usize) -> bool
    requires { f < length fmarks.now }
    ensures { Says result (FrameOk words.now tmarks.now fmarks.now f) }
{
    let m = store::mark_at(fmarks, f);
    if m == 0 {
        return true;
    }
    if m < 2 || store::level_of(tmarks, (m - 2) / 512) != 0 {
        return false;
    }
    store::word_at(words, m - 2) / 1024 == POOL + f as u64
}

// One line, as `tables_ok` is for tables; a function for both would need two closures and say no more.
pub fn frames_ok(words: &[u64], tmarks: &[u32], fmarks: &[u32]) -> bool
    ensures { Says result ((f : ℕ) → f < length fmarks.now → FrameOk words.now tmarks.now fmarks.now f) }
{
    (0..fmarks.len()).all(|f| frame_ok(words, tmarks, fmarks, f))
}
