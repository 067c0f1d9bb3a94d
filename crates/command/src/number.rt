// A number as bytes: the number that a row of digits denotes.
ghost use Rattle.std.specs.Prelude.{◌≡◌};
ghost use Rattle.command.specs.Command.{parsed_of};

// The number that the digits of s denote: none where s is empty or has another byte, or where the number is 2^64 or more. `str::parse` would
// read a plus sign too.
pub fn read_number(s: &[u8]) -> Option<u64>
    ensures { result ≡ parsed_of s.now }
{
    if s.is_empty() {
        return None;
    }
    let mut number: u64 = 0;
    for b in s {
        if !b.is_ascii_digit() {
            return None;
        }
        number = number.checked_mul(10)?.checked_add(u64::from(b - b'0'))?;
    }
    Some(number)
}
