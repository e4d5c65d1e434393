// The ranges of a guard: two numbers each, the first byte and how many bytes.
ghost use Rattle.std.specs.Prelude.{◌≡◌, ◌+◌, ◌^◌, ◌≤◌};
ghost use Rattle.packet.specs.Verdict.{verdict_listed};
ghost use Rattle.interlock.specs.Guard.{shares, faulty, soundness, touches};

use card::check;
use lbp16::Rule;
use packet::judge::Verdict;

// The most ranges that a guard may have.
const MOST: usize = 64;

// The first bytes of the unlock cell and of the packet count.
const UNLOCK: u64 = 65664 + 0x1A;

const COUNT: u64 = 65664 + 0x0A;

// Whether a range has one of the `width` bytes from `place` on.
fn shares(first: u32, bytes: u32, place: u64, width: u64) -> bool
    requires { place + width ≤ 2 ^ 40 }
    ensures { result ≡ shares first bytes place width }
{
    let from = first as u64;
    if place + width <= from {
        return false;
    }
    (bytes != 0) & (place < from + bytes as u64)
}

// Whether a range ends past the store, or has a byte of one of the two. Most ranges end before them.
fn faulty(first: u32, bytes: u32) -> bool
    ensures { result ≡ faulty first bytes }
{
    let end = first as u64 + bytes as u64;
    if end <= COUNT {
        return false;
    }
    ((check::STORE_BYTES as u64) < end)
        | shares(first, bytes, UNLOCK, 2)
        | shares(first, bytes, COUNT, 2)
}

// The number of ranges, or 70 and the index of the earliest pair at fault; half a pair is.
pub(crate) fn soundness(guard: &[u32]) -> Verdict
    ensures { verdict_listed result ≡ soundness guard.now }
{
    let (pairs, half) = guard.as_chunks::<2>();
    for (index, &[first, bytes]) in pairs.iter().enumerate() {
        if (MOST <= index) | faulty(first, bytes) {
            return Err(Rule::Guard.at(index as u64));
        }
    }
    let ranges = pairs.len();
    if half.len() != 0 {
        return Err(Rule::Guard.at(ranges as u64));
    }
    Ok(ranges as u64)
}

// Whether some range has one of the `width` bytes from `place` on.
pub(crate) fn touches(guard: &[u32], place: u64, width: u64) -> bool
    requires { place + width ≤ 2 ^ 40 }
    ensures { result ≡ touches guard.now place width }
{
    // Over pairs as arrays the largest guard costs a quarter more instructions.
    let mut rest = guard;
    while 1 < rest.len() {
        if shares(rest[0], rest[1], place, width) {
            return true;
        }
        rest = &rest[2..];
    }
    false
}
