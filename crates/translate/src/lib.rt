// What a page translates to, and the number of a root for the satp register, after page_table.rs.
#![tactic(auto)]

mod translate;

pub use translate::{as_satp, pgt_translate};
