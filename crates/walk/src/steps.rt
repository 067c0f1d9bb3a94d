// The steps of a walk: the word in a slot, the slot in the table below, the slot of a page.
ghost use Rattle.std.specs.Prelude.{◌≡◌, ◌<◌, ◌^◌};
ghost use Rattle.store.specs.Walk.{slot_word, slot_in, slot};

// The word in slot m, or 0 where there is none, as `slot_word` of store's Walk says: an empty slot and none are the same to a walk.
pub fn slot_word(words: &[u64], m: usize) -> u64
    ensures { result ≡ slot_word words.now m }
{
    if m < 2 {
        return 0;
    }
    store::word_at(words, m - 2)
}

// The slot of entry i of the table that entry e names, or 0 where e is 0. Slot 0 is none, as `slot_in` says: a walk goes on
// from it and finds nothing, without a branch. Tables are numbers here, since entries name them so.
pub fn slot_in(e: u64, i: usize) -> usize
    requires { i < 512 }
    ensures { result ≡ slot_in e i }
{
    let a = 512 * ((e / 1024) as usize) + i + 2;
    if a < 0x2000_0000 {
        return 0;
    }
    a - 0x2000_0000
}

// The slot of the word that root's walk reads for a page, or 0 where a table is missing on the way.
pub fn slot_of(words: &[u64], root: usize, page: usize) -> usize
    requires { (root < 512) × (page < 2 ^ 27) }
    ensures { result ≡ slot (slot_word words.now) root 2 page }
{
    let top = slot_word(words, 512 * root + page / 512 / 512 + 2);
    let middle = slot_word(words, slot_in(top, page / 512 % 512));
    slot_in(middle, page % 512)
}
