// What the program dumps: the entries of a root's tables, and how many there are.
#![tactic(auto)]

mod listing;

pub use listing::dump;
