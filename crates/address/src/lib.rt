// Virtual and physical addresses, after address.rs.
// A helper whose result leaves 64 bits, and a level above 2, is refused as too high.
#![tactic(auto)]

mod kinds;
mod numbers;

pub use kinds::{Address, PhysicalAddress, VirtualAddress};
pub use numbers::{round_down, round_up};

pub const PGSIZE: u64 = 4096;

// Addresses of pages that a root maps are below it.
pub const MAXVA: u64 = 1 << 38;
