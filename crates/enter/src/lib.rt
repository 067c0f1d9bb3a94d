// Entering a range of pages into a root: missing tables are hung, and the words are written a run at a time.
#![tactic(auto)]

mod enter;

pub use enter::{enter_pages, hang_tables, put_mark, put_slot};
