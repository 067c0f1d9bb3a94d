// Samples of calls, each on a fresh store of some tables and 8 frames, with root 0.
ghost use Rattle.std.specs.Prelude.{◌≤◌};

use super::say::put_result;
use address::{PhysicalAddress, VirtualAddress};
use std::io;
use walk::{Bits, RootPages};

// The memory of a store.
#[derive(Drop)]
struct Memory<const WORDS: usize, const TABLES: usize> {
    words: [u64; WORDS],
    tmarks: [u32; TABLES],
    bytes: [u8; 32768],
    fmarks: [u32; 8],
}

impl<const WORDS: usize, const TABLES: usize> Memory<WORDS, TABLES> {
    fn new() -> Self
        requires { (WORDS ≤ 4096) × (TABLES ≤ 8) }
    {
        Memory {
            words: [0u64; WORDS],
            tmarks: [0u32; TABLES],
            bytes: [0u8; 32768],
            fmarks: [0u32; 8],
        }
    }

    // A fresh store with root 0, made where it lies: a memory that is handed on after it was lent is copied.
    fn make_root(&mut self) {
        let _ = store::set_up(
            &mut self.words,
            &mut self.tmarks,
            &mut self.bytes,
            &mut self.fmarks,
        );
        let _ = map::uvmcreate(&self.words, &mut self.tmarks, &self.bytes, &self.fmarks);
    }
}

// What growing from old to new answers with 8 tables, and how many pages are then mapped.
// Each sample here makes one call of its own on a fresh store; what they share is `Memory` and `put_result`.
pub fn growing(rt: &impl Print, name: &str, old: u64, new: u64) -> io::Result<()> {
    let mut m = Memory::<4096, 8>::new();
    m.make_root();
    let grown = grow::uvm_alloc(
        &mut m.words,
        &mut m.tmarks,
        &mut m.bytes,
        &mut m.fmarks,
        0,
        old,
        new,
    );
    print!(rt; "{name}")?;
    put_result(rt, grown)?;
    let all = RootPages {
        root: 0,
        first: 0,
        end: 67108864,
    };
    let pages = walk::count_pages(&m.words, all, Bits::VALID);
    println!(rt; " pages {pages}")
}

// What this source answers with 8 tables.
pub fn loading(rt: &impl Print, name: &str, src: &[u8]) -> io::Result<()> {
    let mut m = Memory::<4096, 8>::new();
    m.make_root();
    let loaded = grow::uvm_init(
        &mut m.words,
        &mut m.tmarks,
        &mut m.bytes,
        &mut m.fmarks,
        0,
        src,
    );
    print!(rt; "{name}")?;
    put_result(rt, loaded)?;
    println!(rt)
}

// What the mapping of one page answers with so many tables.
pub fn mapping<const WORDS: usize, const TABLES: usize>(
    rt: &impl Print,
    name: &str,
    perm: u64,
) -> io::Result<()>
    requires { (WORDS ≤ 4096) × (TABLES ≤ 8) }
{
    let mut m = Memory::<WORDS, TABLES>::new();
    m.make_root();
    let va = VirtualAddress(4096);
    let pa = PhysicalAddress(0x8000_0000);
    let mapped = map::map(
        &mut m.words,
        &mut m.tmarks,
        &m.bytes,
        &m.fmarks,
        0,
        va,
        pa,
        4096,
        perm,
    );
    print!(rt; "{name}")?;
    put_result(rt, mapped)?;
    println!(rt)
}
