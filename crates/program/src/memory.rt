// The memory of a store of 8 tables and 8 frames, and what the program prints for a line: the command's call is made on that store, and its
// answer goes into a lent slice.
ghost use Rattle.std.specs.Prelude.{◌≡◌, take};
ghost use Rattle.std.specs.Counts.{IsPrefixLen};
ghost use Rattle.store.specs.Store.{seen};
ghost use Rattle.store.specs.SetUp.{fresh};
ghost use Rattle.program.specs.Memory.{store_in};
ghost use Rattle.program.specs.Answers.{Answered, Printed};

use address::{PhysicalAddress, VirtualAddress};
use command::Command;
use store::Store;
use text::Text;

// Room for 8 tables of 512 lines of at most 27 bytes, and a last line of at most 24.
pub const ROOM: usize = 110616;

// The four slices of a store, owned.
#[derive(Drop)]
pub struct Memory {
    words: [u64; 4096],
    tmarks: [u32; 8],
    bytes: [u8; 32768],
    fmarks: [u32; 8],
}

impl Memory {
    // A store that is set up.
    pub fn new() -> Memory
        ensures { store_in result ≡ fresh (store_in result) }
    {
        let mut memory = Memory {
            words: [0u64; 4096],
            tmarks: [0u32; 8],
            bytes: [0u8; 32768],
            fmarks: [0u32; 8],
        };
        let _ = store::set_up(
            &mut memory.words,
            &mut memory.tmarks,
            &mut memory.bytes,
            &mut memory.fmarks,
        );
        memory
    }

    // The store as what only reads takes it.
    fn store(&self) -> Store<'_>
        ensures { seen result ≡ store_in self.now }
    {
        Store {
            words: &self.words,
            tmarks: &self.tmarks,
            bytes: &self.bytes,
            fmarks: &self.fmarks,
        }
    }

    // The text of what a command answers; none is any other line.
    fn answer_command(&mut self, c: Option<Command>, text: &mut Text<'_>)
        ensures { Answered (store_in self.old) c text.old text.new (store_in self.new) }
    {
        match c {
            Some(Command::New) => text.put_answer(map::uvmcreate(
                &self.words,
                &mut self.tmarks,
                &self.bytes,
                &self.fmarks,
            )),
            Some(Command::Map(root, va, pa, size, perm)) => text.put_answer(map::map(
                &mut self.words,
                &mut self.tmarks,
                &self.bytes,
                &self.fmarks,
                root,
                VirtualAddress(va),
                PhysicalAddress(pa),
                size,
                perm,
            )),
            Some(Command::Find(root, va)) => text.put_answer(translate::pgt_translate(
                &self.store(),
                root,
                VirtualAddress(va),
            )),
            Some(Command::Dump(root)) => dump::dump(&self.store(), root, text),
            None => text.put_refusal(99),
        }
    }

    // Answers how many bytes of out are the text for the line: what is printed is that prefix, of which the promise speaks.
    pub fn answer_line(&mut self, line: &[u8], out: &mut [u8; ROOM]) -> usize
        ensures prefix_len { IsPrefixLen result out.new }
        ensures printed { Printed (store_in self.old) line.now (take result out.new) (store_in self.new) }
    {
        let mut text = Text::new(out);
        let c = command::read_command(line);
        self.answer_command(c, &mut text);
        text.at
    }
}
