// Taking pages out of a root, after `uvm_unmap` of page_table.rs, and taking U away, after `uvm_clear`.
#![tactic(auto)]

mod judge;
mod leave;
mod unmapping;

pub use judge::{IN_WINDOW, judge_leave, judge_unmap};
pub use leave::leave_pages;
pub use unmapping::{uvm_clear, uvm_unmap};
