// Giving back all tables of a root, after `free` of page_table.rs.
#![tactic(auto)]

mod tree;

pub use tree::{free, free_table};
