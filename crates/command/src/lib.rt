// What the program reads: a line as a command, with its numbers.
#![tactic(auto)]

mod command;
mod number;

pub use command::{Command, read_command};
