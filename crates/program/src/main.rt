// Reads commands from standard input, one a line, and prints what each answers. The store has 8 tables and 8 frames.
#![tactic(auto)]

mod memory;

ghost use Rattle.std.specs.Prelude.{◌≡◌, length};
ghost use Rattle.text.specs.Text.{written};
ghost use Rattle.program.specs.Memory.{store_in};
ghost use Rattle.program.specs.Lines.{Told, Step, Fed};

use memory::Memory;
use std::io;
use std::io::Read;
use text::Text;

// The store, the first failure of a read or a write, and the line so far: what `take_byte` to `run` hand on is in one place.
#[derive(Drop)]
struct Session<'a> {
    memory: Memory,
    outcome: io::Result<()>,
    line: Text<'a>,
}

impl Session<'_> {
    // Prints what the line answers.
    fn print_answer(&mut self, rt: &impl Print)
        ensures same_line { self.new.line ≡ self.old.line }
        ensures told { Told (store_in self.old.memory) (written self.old.line) (store_in self.new.memory) }
    {
        let mut out = [0u8; memory::ROOM];
        let n = self.memory.answer_line(self.line.as_slice(), &mut out);
        self.outcome = self.outcome.and(rt.write_all(&out[..n]));
    }

    // One byte more: a line end has the line answered, any other byte goes to the line, as far as there is room.
    fn take_byte(&mut self, rt: &impl Print, b: u8)
        ensures same_reference { self.new.line.out.ghost_name ≡ self.old.line.out.ghost_name }
        ensures room { length self.new.line.out.now ≡ length self.old.line.out.now }
        ensures step { Step (length self.old.line.out.now)
            (store_in self.old.memory) (written self.old.line) b
            (store_in self.new.memory) (written self.new.line) }
    {
        if b == b'\n' {
            self.print_answer(rt);
            self.line.clear();
        } else {
            self.line.put_byte(b);
        }
    }

    // The bytes of one read.
    fn take_all(&mut self, rt: &impl Print, s: &[u8])
        ensures same_reference { self.new.line.out.ghost_name ≡ self.old.line.out.ghost_name }
        ensures room { length self.new.line.out.now ≡ length self.old.line.out.now }
        ensures fed { Fed (length self.old.line.out.now)
            (store_in self.old.memory) (written self.old.line) s.now
            (store_in self.new.memory) (written self.new.line) }
    {
        for b in s {
            self.take_byte(rt, *b);
        }
    }

    // One read, and whether to read on. Where it fails, nothing is read any more.
    fn one_read(&mut self, rt: &impl Print, input: &mut impl Read) -> bool {
        let mut buf = [0u8; 4096];
        match input.read(&mut buf) {
            Ok(0) => false,
            Ok(k) => {
                self.take_all(rt, &buf[..k]);
                true
            }
            Err(e) => {
                self.outcome = self.outcome.and(Err(e));
                false
            }
        }
    }

    // Reads to the end, which leaves the bytes of a last line without a line end. A proved loop has to end, and nothing says that the
    // input does: the turns are counted, up to a number that no run comes to.
    fn run(&mut self, rt: &(impl Input + Print)) {
        let mut input = rt.reader();
        for _ in 0..u64::MAX {
            if !self.one_read(rt, &mut input) {
                return;
            }
        }
    }
}

// A read or a write that failed ends the run with its error, once the input is read as far as it goes.
fn main(rt: HostRuntime) -> io::Result<()> {
    let mut room = [0u8; 129];
    let mut session = Session {
        memory: Memory::new(),
        outcome: Ok(()),
        line: Text::new(&mut room),
    };
    session.run(&rt);
    if !session.line.as_slice().is_empty() {
        session.print_answer(&rt);
    }
    session.outcome
}
