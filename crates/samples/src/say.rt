// What is printed.
use refusal::Refusal;
use std::io;

// The number that is answered, or `no` and that of the refusal.
pub fn put_result(rt: &impl Print, outcome: Result<u64, Refusal>) -> io::Result<()> {
    match outcome {
        Ok(value) => print!(rt; " {value}"),
        Err(refusal) => {
            let number = refusal.number();
            print!(rt; " no {number}")
        }
    }
}
