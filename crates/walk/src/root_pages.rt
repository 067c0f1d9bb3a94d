// A range of a root's pages.
ghost use Rattle.std.specs.Prelude.{◌^◌, ◌<◌, ◌≤◌};

// The pages from first up to, not including, end: those below 2^38 that a table may map.
#[derive(Clone, Copy)]
pub struct RootPages {
    pub root: usize,
    pub first: usize,
    pub end: usize,
    pub ghost of_a_table: { root < 512 },
    pub ghost in_order: { first ≤ end },
    pub ghost within: { end ≤ 2 ^ 26 },
}
