// Fresh frames for the pages of a root: judged for a range, and entered page by page.
#![tactic(auto)]

mod fresh;

pub use fresh::{enter_frame, judge_fresh};
