// What a page translates to, and the number of a root for the satp register.
ghost use Rattle.store.specs.Store.{seen};
ghost use Rattle.translate.specs.Translate.{Translate};
ghost use Rattle.translate.specs.Satp.{Satp};

use address::{MAXVA, VirtualAddress};
use page_table_entry::PageTableEntry;
use refusal::Refusal;
use store::Store;

// The address of the frame that the page of va resolves to, which must have U. Root and address are C's two numbers.
#[tactic(auto, using(crate::proofs::TranslateLaws::by_root))]
pub fn pgt_translate(store: &Store, root: u64, va: VirtualAddress) -> Result<u64, Refusal>
    ensures { Translate (seen store.now) root va.0 result }
{
    well_formed::judge_root(store, root)?;
    if va.0 >= MAXVA {
        return Err(Refusal::TooHigh);
    }
    let m = walk::slot_of(store.words, root as usize, (va.0 / 4096) as usize);
    let e = PageTableEntry(walk::slot_word(store.words, m));
    if !e.is_valid() {
        return Err(Refusal::NotMapped);
    }
    if !e.is_user() {
        return Err(Refusal::NotUser);
    }
    Ok(e.as_pagetable().0)
}

// Mode 8 in bits 60 to 63, and the frame number of the root's table.
pub fn as_satp(store: &Store, root: u64) -> Result<u64, Refusal>
    ensures { Satp (seen store.now) root result }
{
    well_formed::judge_root(store, root)?;
    Ok(0x8000_0000_0010_0000 + root)
}
