// What C and Rust link: each function of interface, exported under its name, with its clauses. Nothing is decided here.
#![tactic(auto)]

mod addresses;
mod calls;
mod entries;
mod pages;
