// Strings from a process to the kernel, after `copy_in_str` of page_table.rs.
#![tactic(auto)]

mod text;

pub use text::copy_in_str;

// What `copy_in_str` read: how many bytes, and whether it met a zero behind them, which is document 01's answer.
#[derive(Clone, Copy)]
pub struct StrRead {
    pub bytes: usize,
    pub met: bool,
}
