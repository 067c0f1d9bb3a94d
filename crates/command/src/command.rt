// Which command a line is: its name, and its numbers with single spaces between them.
ghost use Rattle.std.specs.Prelude.{◌≡◌};
ghost use Rattle.command.specs.Command.{command_of, told};

use super::number;
use arrayvec::ArrayVec;

#[derive(Drop)]
pub enum Command {
    New,
    Map(u64, u64, u64, u64, u64),
    Find(u64, u64),
    Dump(u64),
}

// The command of this name with these numbers: one match tells both.
fn command_named(name: &[u8], numbers: &[u64]) -> Option<Command>
    ensures { result ≡ told name.now numbers.now }
{
    match (name, numbers) {
        (b"new", []) => Some(Command::New),
        (b"dump", [root]) => Some(Command::Dump(*root)),
        (b"find", [root, va]) => Some(Command::Find(*root, *va)),
        (b"map", [root, va, pa, size, perm]) => {
            Some(Command::Map(*root, *va, *pa, *size, *perm))
        }
        _ => None,
    }
}

// The command that a line is, if it is one.
pub fn read_command(line: &[u8]) -> Option<Command>
    ensures { result ≡ command_of line.now }
{
    if 128 < line.len() {
        return None;
    }
    let mut pieces = line.split(|b| *b == b' ');
    let name = pieces.next()?;
    let mut numbers: ArrayVec<u64, 5> = ArrayVec::new();
    for piece in pieces {
        numbers.try_push(number::read_number(piece)?).ok()?;
    }
    command_named(name, &numbers)
}
