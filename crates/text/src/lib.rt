// What the program writes: decimal numbers, the line of an answer and the row of an entry.
#![tactic(auto)]

mod text;

pub use text::Text;
