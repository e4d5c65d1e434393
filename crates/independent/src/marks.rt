// A mark for each cell of the store, by the place where the cell stands: how the first list uses it. A mark is two bits, and no
// two cells stand at the same two bytes, so that the table has a byte for each eight of the store.
ghost use Rattle.std.specs.Prelude.{◌≡◌, List, [], ◌<◌, length, get_or};
ghost use Rattle.packet.specs.Step.{Step};
ghost use Rattle.cue.specs.Records.{records, records_of, cut_up};
ghost use Rattle.independent.specs.Independent.{first_clash, independence_listed};
ghost use Rattle.independent.specs.Inside.{Accepted, place_by, marked_by, clashes_with, mark_in, mark_at, picked, with_mark, table_bytes, Marked};

use crate::Independence;
use cue::records::{Record, Records};
use lbp16::space;

// Two bits of the table's byte, which the definitions have as a number.
const FREE: u8 = 0;

const READ: u8 = 1;

const WRITTEN: u8 = 2;

fn place_of(r: Record) -> usize
    ensures { result ≡ place_by r }
{
    let row = space::row_of(r.space);
    row.place as usize + r.address as usize
}

// The mark of a cell that one more record names.
fn marked(old: u8, write: bool) -> u8
    ensures { (result ≡ marked_by old write) × (result < 4) }
{
    if write | (old == WRITTEN) {
        WRITTEN
    } else {
        READ
    }
}

// The mark in one of a byte's four slots.
fn mark_in(byte: u8, slot: usize) -> u8
    ensures { (result ≡ mark_in byte slot) × (result < 4) }
{
    match slot {
        0 => byte % 4,
        1 => byte / 4 % 4,
        2 => byte / 16 % 4,
        _ => byte / 64 % 4,
    }
}

fn picked(byte: u8, slot: usize, mark: u8, k: usize) -> u8
    requires { mark < 4 }
    ensures { (result ≡ picked byte slot mark k) × (result < 4) }
{
    if slot == k { mark } else { mark_in(byte, k) }
}

// A byte of the table once one more record names the cell of this slot.
fn marked_in(byte: u8, slot: usize, write: bool) -> u8
    ensures { result ≡ with_mark byte slot (marked_by (mark_in byte slot) write) }
{
    let mark = marked(mark_in(byte, slot), write);
    let a = picked(byte, slot, mark, 0);
    let b = picked(byte, slot, mark, 1);
    let c = picked(byte, slot, mark, 2);
    let d = picked(byte, slot, mark, 3);
    a + 4 * b + 16 * c + 64 * d
}

// Whether a record clashes with those that left this mark at its cell.
fn clashes(mark: u8, write: bool) -> bool
    ensures { result ≡ clashes_with mark write }
{
    (mark == WRITTEN) | (write & (mark != FREE))
}

fn byte_at(marks: &[u8], at: usize) -> u8
    ensures { result ≡ get_or marks.now at 0 }
{
    marks.get(at).copied().unwrap_or(0)
}

// The mark at the cell of a record.
fn mark_of(marks: &[u8], r: Record) -> u8
    ensures { result ≡ mark_at marks.now (place_by r) }
{
    let at = place_of(r);
    mark_in(byte_at(marks, at / 8), at / 2 % 4)
}

// Marks the cells of an accepted list's records.
pub(crate) fn mark(list: &[u8], marks: &mut [u8])
    requires { Accepted list.now × Marked [] marks.old }
    ensures { (xs : List Step) → records_of list.now ≡ records xs → Marked xs marks.new }
{
    for r in Records(list) {
        let at = place_of(r);
        let i = at / 8;
        marks[i] = marked_in(marks[i], at / 2 % 4, r.write);
    }
}

// The first record of an accepted list that clashes with the records that left these marks.
pub(crate) fn first_clash(list: &[u8], marks: &[u8]) -> Independence
    requires { Accepted list.now × (length marks.now ≡ table_bytes) }
    ensures { (xs ys : List Step) → Marked xs marks.now → records_of list.now ≡ records ys
        → independence_listed result ≡ first_clash xs 0 ys }
{
    for (index, r) in Records(list).enumerate() {
        if clashes(mark_of(marks, r), r.write) {
            return Independence::Clash(index as u64);
        }
    }
    Independence::Independent
}
