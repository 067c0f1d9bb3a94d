// Bytes between the kernel and a process, after page_table.rs.
#![tactic(auto)]

mod bytes;
mod in_out;
mod needed;

pub use bytes::{place, read_bytes};
pub use in_out::{copy_in, copy_out};
pub use needed::judge_page;
