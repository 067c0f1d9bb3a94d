// Replays the calls of list.rt, whose answers are the Rust's, and prints how many come out the same here.
#![tactic(auto)]

mod answer;
mod call;
mod list;
mod memory;
mod replay;
mod row;

use std::io;

fn main(rt: HostRuntime) -> io::Result<()> {
    let found = replay::all(&rt)?;
    let replay::Found {
        equal,
        listed,
        wrong,
    } = found;
    println!(rt; "{equal} answers as the Rust's")?;
    println!(rt; "{listed} refusals as docs/DIFFERENCES.md lists them")?;
    println!(rt; "{wrong} otherwise")
}
