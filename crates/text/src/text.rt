// Text goes into a lent slice: bytes, numbers in decimal, the lines of the program. What finds no room is left out.
// Each function here says in a definition what it writes, which `write!` would leave to be told from its format.
ghost use Rattle.std.specs.Prelude.{◌≡◌, ◌<◌, ◌≤◌, [], ◌∷◌, length};

use refusal::Refusal;

// A lent slice, and where the text in it ends.
#[derive(Drop)]
pub struct Text<'a> {
    pub out: &'a mut [u8],
    pub at: usize,
    ghost at_in_bounds: { at ≤ length out.now },
}

impl<'a> Text<'a> {
    ghost use Rattle.text.specs.Text.{written, Wrote, decimal, LineWrote, SaidWrote, RowWrote};

    // No text so far.
    pub fn new(out: &'a mut [u8]) -> Text<'a>
        ensures same_reference { result.out.ghost_name ≡ out.entry.ghost_name }
        ensures bytes { result.out.now ≡ out.old }
        ensures empty { result.at ≡ 0 }
    {
        Text { out, at: 0 }
    }

    // The text so far.
    pub fn as_slice(&self) -> &[u8]
        ensures { result.now ≡ written self.now }
    {
        &self.out[..self.at]
    }

    // Begins again, with no text.
    pub fn clear(&mut self)
        ensures same_reference { self.new.out.ghost_name ≡ self.old.out.ghost_name }
        ensures bytes { self.new.out.now ≡ self.old.out.now }
        ensures empty { self.new.at ≡ 0 }
    {
        self.at = 0;
    }

    // One byte.
    pub fn put_byte(&mut self, b: u8)
        ensures { Wrote self.old (b ∷ []) self.new }
    {
        if self.at < self.out.len() {
            self.out[self.at] = b;
            self.at += 1;
        }
    }

    // Bytes.
    fn put(&mut self, bytes: &[u8])
        ensures { Wrote self.old bytes.now self.new }
    {
        for b in bytes {
            self.put_byte(*b);
        }
    }

    // A number.
    fn put_number(&mut self, n: u64)
        ensures { Wrote self.old (decimal n) self.new }
    {
        let mut digits = [0u8; 20];
        let count = io::decimal(n, &mut digits);
        self.put(&digits[..count]);
    }

    // A line of the dump.
    pub fn put_row(&mut self, level: u64, index: u64, word: u64)
        requires level_bound { (level < 10) × (index < 1000) }
        ensures { RowWrote self.old level index word self.new }
    {
        self.put_number(level);
        self.put_byte(b' ');
        self.put_number(index);
        self.put_byte(b' ');
        self.put_number(word);
        self.put_byte(b'\n');
    }

    // A line of a word and a number.
    fn put_line(&mut self, word: &[u8], n: u64)
        ensures { LineWrote self.old word.now n self.new }
    {
        self.put(word);
        self.put_number(n);
        self.put_byte(b'\n');
    }

    // The line of a refusal.
    pub fn put_refusal(&mut self, number: u64)
        ensures { LineWrote self.old (110 ∷ 111 ∷ 32 ∷ []) number self.new }
    {
        self.put_line(b"no ", number);
    }

    // The line of an answer.
    pub fn put_answer(&mut self, answer: Result<u64, Refusal>)
        ensures { SaidWrote self.old answer self.new }
    {
        match answer {
            Ok(value) => self.put_line(b"ok ", value),
            Err(refusal) => self.put_refusal(refusal.number()),
        }
    }
}
