// Sizes in bytes of what a root maps from page 0 on, and shrinking from one to another, after `uvm_dealloc` of page_table.rs.
#![tactic(auto)]

mod shrink;
mod sizes;

pub use shrink::uvm_dealloc;
pub use sizes::{judge_sizes, pages_to};
