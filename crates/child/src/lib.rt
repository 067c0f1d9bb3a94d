// A process's pages for its child, after `uvm_copy` of page_table.rs.
#![tactic(auto)]

mod child;

pub use child::uvm_copy;
