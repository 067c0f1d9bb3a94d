// What a row of list.rt says.
use super::call::{Call, UnknownCall};
use super::list;
use refusal::Refusal;
use replies::Reply;

// What the Rust answers, in its column, where it is None.
const NONE: u64 = 1;

// A call with its five numbers, and what must come of it.
#[derive(Drop)]
pub struct Row {
    pub call: Call,
    pub numbers: [u64; 5],
    // Whether the Rust is listed to answer otherwise; the reply is the wanted one in either case.
    pub is_listed: bool,
    reply: Reply,
    digest: u64,
}

// The listed refusal, else that of an address that is not mapped for None, else the Rust's value.
fn wanted(answer: u64, value: u64, listed: u64) -> Reply {
    match (listed, answer) {
        (0, NONE) => Reply {
            number: Refusal::NotMapped.number(),
            value: 0,
        },
        (0, _) => Reply { number: 0, value },
        (number, _) => Reply { number, value: 0 },
    }
}

impl TryFrom<[u64; list::COLUMNS]> for Row {
    type Error = UnknownCall;

    fn try_from(columns: [u64; list::COLUMNS]) -> Result<Self, UnknownCall> {
        let [call, a, b, c, d, e, answer, value, listed, digest] = columns;
        Ok(Row {
            call: Call::try_from(call)?,
            numbers: [a, b, c, d, e],
            is_listed: listed != 0,
            reply: wanted(answer, value, listed),
            digest,
        })
    }
}

impl Row {
    // Whether a reply, and the digest of the memory afterwards, are as the row says.
    pub fn agrees(&self, reply: &Reply, digest: u64) -> bool {
        *reply == self.reply && digest == self.digest
    }
}

// No number of the list is left over.
const _: () = prove!(list::LIST.len() == list::ROWS * list::COLUMNS);

// The columns of each row.
pub fn all() -> &'static [[u64; list::COLUMNS]] {
    let (rows, _) = list::LIST.as_chunks::<{ list::COLUMNS }>();
    rows
}
