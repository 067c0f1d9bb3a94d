// Every helper and every call, on numbers and lent slices, with its whole promise, as C and Rust call it. Nothing is decided here.
#![tactic(auto)]

pub mod addresses;
pub mod calls;
pub mod entries;
pub mod pages;
