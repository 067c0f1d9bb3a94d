// From a root and a page to the page's level-0 word, and what a judge asks of a range of pages: how many have certain bits, and how
// many tables are missing.
#![tactic(auto)]

mod bits;
mod missing;
mod ranges;
mod root_pages;
mod runs;
mod steps;

pub use bits::Bits;
pub use missing::missing_tables;
pub use ranges::count_pages;
pub use root_pages::RootPages;
pub use runs::run_of;
pub use steps::{slot_in, slot_of, slot_word};
