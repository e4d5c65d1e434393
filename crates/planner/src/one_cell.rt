// A list of reads that are all of one cell: one command without increment reads them.
ghost use Rattle.std.specs.Prelude.{◌≡◌, true, false, ◌++◌, ℕ, ◌≤◌, length, drop, Some, IfSome, unwrap_or};
ghost use Rattle.lbp16.specs.Word.{word_of};
ghost use Rattle.packet.specs.Step.{Step};
ghost use Rattle.planner.specs.Planner.{OneCell};
ghost use Rattle.planner.specs.Inside.{Proposed, StillPut, still_fields, framed_command};

use cue::records;
use cue::records::{Record, Records};
use lbp16::word::Fields;
use lbp16::{space, word};

// Whether a record is a read of the cell.
fn reads(r: Record, cell: Record) -> bool
    ensures { r ≡ cell → r.write ≡ false → result ≡ true }
{
    !r.write & (r.space == cell.space) & (r.address == cell.address)
}

// How many reads of one cell the list has, 2 to 127. Of another list only that it is not more.
fn reads_of_one_cell(list: &[u8]) -> Option<u8>
    ensures { IfSome result (λ n. n ≤ 127) × ((n : ℕ) (x : Step) → OneCell list.now n x → result ≡ Some n) }
{
    let cell = records::record_at(list);
    let mut count: u8 = 0;
    for r in Records(list) {
        if !reads(r, cell) {
            return None;
        }
        if count == 127 {
            return None;
        }
        count += 1;
    }
    if count < 2 {
        return None;
    }
    Some(count)
}

// The word of the command that reads the cell so many times.
fn word_of(cell: Record, count: u8) -> u16
    ensures { cell.space ≤ 7 → count ≤ 127 → result ≡ word_of (still_fields count cell) }
{
    let fields = Fields {
        write: false,
        address: true,
        info: false,
        space: cell.space,
        size: space::row_of(cell.space).size,
        increment: false,
        count,
    };
    word::word_of(fields).unwrap_or(0)
}

// A packet of one command without data.
fn put_command(out: &mut [u8], word: u16, address: u16)
    requires { 8 ≤ length out.old }
    ensures { out.new ≡ framed_command word address ++ drop 8 out.old }
{
    let w = word.to_le_bytes();
    let a = address.to_le_bytes();
    out[..8].copy_from_slice(&[0x4C, 0x42, 4, 0, w[0], w[1], a[0], a[1]]);
}

// The packet for a list of 2 to 127 reads of one cell; none for another list.
pub(crate) fn one_cell(list: &[u8], out: &mut [u8]) -> Option<usize>
    ensures proposed { Proposed (unwrap_or result 0) (length out.old) out.old out.new }
    ensures still { StillPut list.now (unwrap_or result 0) (length out.old) out.new }
{
    let count = reads_of_one_cell(list)?;
    if out.len() < 8 {
        return None;
    }
    let cell = records::record_at(list);
    put_command(out, word_of(cell, count), cell.address);
    Some(8)
}
