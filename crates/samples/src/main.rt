// The samples of document 01, a line each: what the code says on them. The numbers are those of the document.
#![tactic(auto)]

mod calls;
mod say;

ghost use Rattle.std.specs.Prelude.{◌^◌, ◌≤◌};

use address::{Address, PhysicalAddress, VirtualAddress};
use calls::{growing, loading, mapping};
use page_table_entry::PageTableEntry;
use say::put_result;
use std::io;
use walk::RootPages;

// The indices of va, from level 2 down.
fn indices(rt: &impl Print, name: &str, va: u64) -> io::Result<()> {
    let va = VirtualAddress(va);
    print!(rt; "{name}")?;
    put_result(rt, va.page_num(2))?;
    put_result(rt, va.page_num(1))?;
    put_result(rt, va.page_num(0))?;
    println!(rt)
}

// The entry for the frame of pa.
fn entry(rt: &impl Print, name: &str, pa: u64, perm: u64) -> io::Result<()> {
    match PageTableEntry::write_perm(PhysicalAddress(pa), perm) {
        Ok(e) => {
            let word = e.as_usize();
            println!(rt; "{name} 0x{word:x}")
        }
        Err(refusal) => {
            let number = refusal.number();
            println!(rt; "{name} no {number}")
        }
    }
}

// The pages that a range covers: the first, and the end that is not covered.
fn pages(rt: &impl Print, name: &str, va: u64, size: u64) -> io::Result<()> {
    let range = rounding::page_range(VirtualAddress(va), size);
    let first = range.first;
    let end = range.end;
    println!(rt; "{name} {first} up to {end}")
}

// The tables that pages of root 0 miss in a fresh store of 8 tables.
fn missing(rt: &impl Print, name: &str, first: usize, end: usize) -> io::Result<()>
    requires { (first ≤ end) × (end ≤ 2 ^ 26) }
{
    let words = [0u64; 4096];
    let pages = RootPages {
        root: 0,
        first,
        end,
    };
    let tables = walk::missing_tables(&words, pages);
    println!(rt; "{name} {tables}")
}

// The address and the flags of an entry.
fn parts(rt: &impl Print, name: &str, e: u64) -> io::Result<()> {
    let address = PageTableEntry(e).as_pagetable().as_usize();
    let flags = PageTableEntry(e).as_flags();
    println!(rt; "{name} 0x{address:x} {flags}")
}

fn main(rt: HostRuntime) -> io::Result<()> {
    indices(&rt, "S1", 0x3F_FFFF_F000)?;
    indices(&rt, "S2", 0x4020_1000)?;
    entry(&rt, "S3", 0x8000_0000, 6)?;
    entry(&rt, "S4", 0x8000_0FFF, 6)?;
    entry(&rt, "S5", 0x1_0000_0000 + 4096 * 3, 0)?;
    entry(&rt, "S6", 0x1_1000_0000 + 4096 * 2, 31)?;
    pages(&rt, "S7", 0x1001, 0)?;
    pages(&rt, "S8", 0x1000, 0)?;
    pages(&rt, "S9", 0xFFF, 2)?;
    missing(&rt, "S10", 262143, 262145)?;
    missing(&rt, "S11", 511, 1024)?;
    parts(&rt, "S12", 0x2000_0007)?;
    growing(&rt, "S13", 1, 4096)?;
    growing(&rt, "S13", 0, 4097)?;
    mapping::<1024, 2>(&rt, "S14", 22)?;
    mapping::<1536, 3>(&rt, "S14", 22)?;
    loading(&rt, "S15", &[7u8; 4095])?;
    loading(&rt, "S15", &[7u8; 4096])?;
    mapping::<4096, 8>(&rt, "S15", 1023)?;
    mapping::<4096, 8>(&rt, "S15", 1024)
}
