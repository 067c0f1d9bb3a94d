// The calls that end a process's root: they take its pages out and then give back its tables, after page_table.rs.
#![tactic(auto)]

mod parts;

pub use parts::{free_shared_user_pagetable, proc_free_pagetable, uvm_free};
