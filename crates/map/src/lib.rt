// Mapping a range of pages, after `map` of page_table.rs: judged whole before the first write. And the making of a root.
#![tactic(auto)]

mod create;
mod judge;
mod mapping;

pub use create::uvmcreate;
pub use mapping::map;
