// Growing what a root maps from page 0 on, after `uvm_init` and `uvm_alloc` of page_table.rs.
#![tactic(auto)]

mod growing;
mod init;

pub use growing::uvm_alloc;
pub use init::uvm_init;
