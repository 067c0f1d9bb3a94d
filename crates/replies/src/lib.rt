// Answers as C reads them.
#![tactic(auto)]

mod reply;

pub use reply::{Reply, Value};
