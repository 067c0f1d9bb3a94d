// The call of a row, made here.
use super::call::{Call, Helper, Reading, Writing};
use super::memory::Memory;
use super::row::Row;
use address::{PhysicalAddress, VirtualAddress};
use page_table_entry::PageTableEntry;
use refusal::Refusal;
use replies::Reply;
use store::Store;

// What a helper answers to the first two numbers of a row.
fn helped(call: Helper, a: u64, b: u64) -> Reply {
    match call {
        Helper::PageRoundUp => rounding::page_round_up(a).into(),
        Helper::VirtualPageNum => VirtualAddress(a).page_num(b).into(),
        Helper::EntryWritePerm => PageTableEntry::write_perm(PhysicalAddress(a), b).into(),
    }
}

// What a call that reads the store answers; of a text that was read, its length.
fn read(call: Reading, numbers: [u64; 5], memory: &mut Memory) -> Reply {
    let [root, va, length, _, _] = numbers;
    let va = VirtualAddress(va);
    let store = Store {
        words: &memory.words,
        tmarks: &memory.tmarks,
        bytes: &memory.bytes,
        fmarks: &memory.fmarks,
    };
    let lent = &mut memory.lent[..];
    let length = (length as usize).min(lent.len());
    let dst = &mut lent[..length];
    match call {
        Reading::PgtTranslate => translate::pgt_translate(&store, root, va).into(),
        Reading::AsSatp => translate::as_satp(&store, root).into(),
        Reading::CopyIn => copies::copy_in(&store, root, va, dst).into(),
        Reading::CopyInStr => strings::copy_in_str(&store, root, va, dst).into(),
    }
}

// The first of the lent bytes, or all where there are no more, for which slices have no method.
fn first(lent: &[u8], length: u64) -> &[u8] {
    &lent[..(length as usize).min(lent.len())]
}

// What a call that writes to the store answers.
fn written(call: Writing, numbers: [u64; 5], memory: &mut Memory) -> Result<u64, Refusal> {
    let [root, b, c, d, e] = numbers;
    let (va, pa) = (VirtualAddress(b), PhysicalAddress(c));
    let Memory {
        words,
        tmarks,
        bytes,
        fmarks,
        lent,
    } = memory;
    match call {
        Writing::Uvmcreate => map::uvmcreate(words, tmarks, bytes, fmarks),
        Writing::Map => map::map(words, tmarks, bytes, fmarks, root, va, pa, d, e),
        Writing::UvmUnmap => unmap::uvm_unmap(words, tmarks, bytes, fmarks, root, va, c, d != 0),
        Writing::UvmClear => unmap::uvm_clear(words, tmarks, bytes, fmarks, root, va),
        Writing::UvmDealloc => shrink::uvm_dealloc(words, tmarks, bytes, fmarks, root, b, c),
        Writing::UvmInit => grow::uvm_init(words, tmarks, bytes, fmarks, root, first(lent, b)),
        Writing::UvmAlloc => grow::uvm_alloc(words, tmarks, bytes, fmarks, root, b, c),
        Writing::CopyOut => {
            let src = first(lent, c);
            copies::copy_out(words, tmarks, bytes, fmarks, root, va, src)
        }
        Writing::UvmCopy => child::uvm_copy(words, tmarks, bytes, fmarks, root, b, c),
        Writing::Free => release::free(words, tmarks, bytes, fmarks, root),
        Writing::UvmFree => process::uvm_free(words, tmarks, bytes, fmarks, root, b),
        Writing::FreeSharedUserPagetable => {
            process::free_shared_user_pagetable(words, tmarks, bytes, fmarks, root, b)
        }
        Writing::ProcFreePagetable => {
            process::proc_free_pagetable(words, tmarks, bytes, fmarks, root, b)
        }
    }
}

// What the call of a row answers, and writes.
pub fn made(row: &Row, memory: &mut Memory) -> Reply {
    let [a, b, ..] = row.numbers;
    match row.call {
        Call::FreshStore => memory.set_up().into(),
        Call::Helper(call) => helped(call, a, b),
        Call::Reading(call) => read(call, row.numbers, memory),
        Call::Writing(call) => written(call, row.numbers, memory).into(),
    }
}
