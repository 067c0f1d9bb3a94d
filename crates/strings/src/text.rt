// A string from a process to the kernel, after `copy_in_str` of page_table.rs: measured and judged, then copied.
ghost use Rattle.std.specs.Prelude.{◌≡◌, ◌==◌, ◌≤◌, ◌<◌, length};
ghost use Rattle.store.specs.Count.{lowest};
ghost use Rattle.store.specs.Store.{seen};
ghost use Rattle.well_formed.specs.Root.{RootReady};
ghost use Rattle.strings.specs.Str.{Str, Measures};

use super::StrRead;
use address::VirtualAddress;
use refusal::Refusal;
use store::Store;

// Whether no byte is zero, by their least: `all` has a branch for each byte, and took 2 to 24 times as long over 64 to 4,096 bytes.
fn no_zero(part: &[u8]) -> bool
    ensures { result ≡ (lowest part.now == length part.now) }
{
    part.iter().fold(255, |least: u8, byte| least.min(*byte)) != 0
}

// How many bytes there are in the whole steps before the first step that has a zero.
fn skip(part: &[u8], step: usize) -> usize
    requires { 0 < step }
    ensures { result ≤ lowest part.now }
{
    step * part
        .chunks_exact(step)
        .take_while(|chunk| no_zero(chunk))
        .count()
}

// The place of the first zero, or the length where there is none, byte by byte.
fn zero_in(part: &[u8]) -> usize
    ensures { result ≡ lowest part.now }
{
    part.iter()
        .position(|byte| *byte == 0)
        .unwrap_or(part.len())
}

// The same by long steps, then by short ones, and at last byte by byte. The length stands for none, as `lowest` says: the steps add up.
#[tactic(auto, using(store::proofs::Free::lowest_behind, store::proofs::Free::lowest_le))]
fn first_zero(part: &[u8]) -> usize
    ensures { result ≡ lowest part.now }
{
    let long = skip(part, 512);
    let short = long + skip(&part[long..], 64);
    short + zero_in(&part[short..])
}

// Follows at most max bytes from va on, page by page, up to the first zero. Root and address are C's two numbers.
#[tactic(auto, using(crate::proofs::TextCode::refuse))]
fn measure(store: &Store, root: usize, va: u64, max: usize) -> Result<StrRead, Refusal>
    requires { RootReady (seen store.now) root }
    ensures { Measures (seen store.now) root va max result }
{
    let mut i = 0;
    // No `for`: a part ends with its page, and where max is 0 one page is judged all the same.
    loop {
        let a = va + (i as u64);
        copies::judge_page(store, root, a)?;
        let k = (4096 - (a % 4096) as usize).min(max - i);
        let from = copies::place(store.words, root, a);
        let z = first_zero(&store.bytes[from..from + k]);
        if z < k {
            return Ok(StrRead {
                bytes: i + z,
                met: true,
            });
        }
        i += k;
        if i >= max {
            return Ok(StrRead {
                bytes: i,
                met: false,
            });
        }
    }
}

// The bytes from va on, up to the first zero, go to the buffer; behind the zero or the buffer's end nothing is looked at.
#[tactic(auto, using(crate::proofs::TextReasons::by_root))]
pub fn copy_in_str(
    store: &Store,
    root: u64,
    va: VirtualAddress,
    dst: &mut [u8],
) -> Result<StrRead, Refusal>
    ensures { Str (seen store.now) root va.0 dst.old result dst.new }
{
    well_formed::judge_root(store, root)?;
    let r = root as usize;
    let read = measure(store, r, va.0, dst.len())?;
    copies::read_bytes(store, r, va.0, &mut dst[..read.bytes]);
    Ok(read)
}
