// A cue list's records. Every function here gets the list's bytes from that record on.
ghost use Rattle.std.specs.Prelude.{◌≡◌, not, true, false, ℕ, ◌<◌, ◌≤◌, length, drop, get_or, eqb};
ghost use Rattle.lbp16.specs.Answer.{ruled};
ghost use Rattle.lbp16.specs.Space.{is_absent};
ghost use Rattle.packet.specs.Command.{pick_kind};
ghost use Rattle.packet.specs.Rules.{first};
ghost use Rattle.cue.specs.Records.{record_step, record_space, record_bytes, bad_element, upper_half, record_refusals, most_records};
ghost use Rattle.cue.specs.Records.{record_at};
ghost use Rattle.std.specs.Iterator.{YieldsFirst, item_count};
ghost use Rattle.cue.specs.Records.{cut_up};

use lbp16::{Rule, space};
use packet::bytes;

// The most records that a list may have.
pub const MOST: usize = 100000;

pub const READ_MARK: u16 = 0x4452;

pub const WRITE_MARK: u16 = 0x5257;

// What a record names, a write's value apart.
#[derive(Clone, Copy, Debug, PartialEq, Eq)]
pub struct Record {
    pub write: bool,
    pub space: u8,
    pub address: u16,
}

// A byte that is not there counts as 0.
fn byte_at(s: &[u8], at: usize) -> u8
    ensures { result ≡ get_or s.now at 0 }
{
    s.get(at).copied().unwrap_or(0)
}

pub fn record_at(rest: &[u8]) -> Record
    ensures { result ≡ record_at rest.now }
{
    Record {
        write: bytes::pair_at(rest, 0) == WRITE_MARK,
        space: byte_at(rest, 2),
        address: bytes::pair_at(rest, 4),
    }
}

// The same of a record that is whole, so that no byte is asked for whether it is there.
pub(crate) fn whole_record(rest: &[u8]) -> Record
    requires { 6 ≤ length rest.now }
    ensures { result ≡ record_at rest.now }
{
    record_at(&rest[..6])
}

// The bytes of a record in the list.
pub fn record_bytes(write: bool) -> usize
    ensures { (result ≡ record_bytes (pick_kind write)) × (result ≤ 10) }
{
    if write { 10 } else { 6 }
}

// Refusal 23.
fn bad_element(rest: &[u8]) -> bool
    ensures { result ≡ bad_element (record_step rest.now) }
{
    let r = record_at(rest);
    let row = space::row_of(r.space);
    let address = r.address as u32;
    space::is_absent(r.space)
        | (address % row.element != 0)
        | (row.bytes < address + row.element)
        | ((address < row.read_only) & r.write)
        | (((address == 0x1A) | (address == 0x0A)) & (r.space == 6))
}

// Whether a value has more than its element has room for.
fn too_wide(rest: &[u8]) -> bool
    ensures { is_absent (record_space rest.now) ≡ false → result ≡ not (eqb (upper_half rest.now) 0) }
{
    (byte_at(rest, 2) != 0) & (bytes::pair_at(rest, 8) != 0)
}

// The lowest of refusals 21 to 24 whose condition holds.
fn lowest_refusal(rest: &[u8], index: usize) -> Result<(), Rule>
    ensures { ruled result ≡ first (record_refusals index rest.now) }
{
    if index == MOST {
        return Err(Rule::ListLength);
    }
    if rest.len() < 6 {
        return Err(Rule::Record);
    }
    let mark = bytes::pair_at(rest, 0);
    let write = mark == WRITE_MARK;
    if ((mark != READ_MARK) & !write) | (rest.len() < record_bytes(write)) {
        return Err(Rule::Record);
    }
    if bad_element(rest) {
        return Err(Rule::RecordElement);
    }
    if (byte_at(rest, 3) != 0) | (write & too_wide(rest)) {
        return Err(Rule::RecordValue);
    }
    Ok(())
}

// Whether this is surely a good record: of a register, with as many bytes as a write has. Most records are, and need no
// look into the table of spaces.
fn plain_register(rest: &[u8]) -> bool
    ensures { result ≡ true → (index : ℕ) → eqb index most_records ≡ false → first (record_refusals index rest.now) ≡ 0 }
{
    if rest.len() < 10 {
        return false;
    }
    let mark = bytes::pair_at(rest, 0);
    let address = bytes::pair_at(rest, 4);
    ((mark == READ_MARK) | (mark == WRITE_MARK))
        & (byte_at(rest, 2) == 0)
        & (byte_at(rest, 3) == 0)
        & (address % 4 == 0)
}

// What the table says, found without it for a plain register.
pub fn record_refusal(rest: &[u8], index: usize) -> Result<(), Rule>
    ensures { ruled result ≡ first (record_refusals index rest.now) }
{
    if plain_register(rest) & (index != MOST) {
        return Ok(());
    }
    lowest_refusal(rest, index)
}

// The bytes behind the first n, none where there are not so many.
fn past(rest: &[u8], n: usize) -> &[u8]
    ensures { result.now ≡ drop n rest.now }
{
    rest.get(n..).unwrap_or(&[])
}

// A list's records one after the other, each ending where its mark says or at the list's end.
#[derive(Clone, Copy)]
pub struct Records<'a>(pub &'a [u8]);

impl<'a> Iterator for Records<'a> {
    type Item = Record;

    ghost next_gives = { YieldsFirst (λ s. cut_up s.0.now) };

    ghost remaining = { item_count (λ s. cut_up s.0.now) };

    fn next(&mut self) -> Option<Record> {
        if self.0.is_empty() {
            return None;
        }
        let r = record_at(self.0);
        self.0 = past(self.0, record_bytes(r.write));
        Some(r)
    }
}
