// The rows, each made as a call here and held to what it says.
use super::answer;
use super::call::{Call, UnknownCall};
use super::memory::Memory;
use super::row::{self, Row};
use std::io;

// What came of a row: a fresh store, which is not counted, the Rust's answer, the listed refusal, or neither.
enum Kind {
    Fresh,
    Equal,
    Listed,
    Wrong,
}

// How many rows came out as the Rust's answer, as the listed refusal, and otherwise.
#[derive(Drop)]
pub struct Found {
    pub equal: u64,
    pub listed: u64,
    pub wrong: u64,
}

// Makes the call of a row, and says what comes of it; where it is not as it must be, it is printed.
fn kind_of(rt: &impl Print, index: usize, row: &Row, memory: &mut Memory) -> io::Result<Kind> {
    memory.lend();
    let reply = answer::made(row, memory);
    let digest = memory.digest();
    if !row.agrees(&reply, digest) {
        let number = reply.number;
        let value = reply.value;
        println!(rt; "row {index}: number {number}, value 0x{value:x}, digest 0x{digest:x}")?;
        return Ok(Kind::Wrong);
    }
    Ok(match row.call {
        Call::FreshStore => Kind::Fresh,
        _ if row.is_listed => Kind::Listed,
        _ => Kind::Equal,
    })
}

// Every row in turn; those of a fresh store are not counted.
pub fn all(rt: &impl Print) -> io::Result<Found> {
    let mut memory = Memory::new();
    let mut found = Found {
        equal: 0,
        listed: 0,
        wrong: 0,
    };
    for (index, columns) in row::all().iter().enumerate() {
        let kind = match Row::try_from(*columns) {
            Ok(row) => kind_of(rt, index, &row, &mut memory)?,
            Err(UnknownCall(number)) => {
                println!(rt; "row {index}: no call {number}")?;
                Kind::Wrong
            }
        };
        match kind {
            Kind::Fresh => {}
            Kind::Equal => found.equal += 1,
            Kind::Listed => found.listed += 1,
            Kind::Wrong => found.wrong += 1,
        }
    }
    Ok(found)
}
