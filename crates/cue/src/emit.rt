// The second pass: the packets of a good list are written, record by record.
ghost use Rattle.std.specs.Prelude.{◌≡◌, true, ◌++◌, ◌+◌, ◌≤◌, length, take, drop};
ghost use Rattle.std.proofs.lemmas.List.Edits.{sets};
ghost use Rattle.lbp16.specs.Word.{word_of};
ghost use Rattle.packet.specs.Bytes.{bytes_of};
ghost use Rattle.cue.specs.Records.{records_of};
ghost use Rattle.cue.specs.Inside.{planned, room_after, Placed, Ready};
ghost use Rattle.cue.specs.Summary.{Progress, last_fields, framed_at, unlocked_at, headed_at, wrote};

use crate::frame::MARK;
use crate::packer::Packer;
use crate::{packer, records};
use lbp16::word::Fields;
use lbp16::{space, word};

// Two bytes, low byte first.
fn put2(out: &mut [u8], at: usize, value: u16)
    requires { at + 2 ≤ length out.old }
    ensures { out.new ≡ sets out.old at (bytes_of 2 value) }
{
    let [low, high] = value.to_le_bytes();
    out[at] = low;
    out[at + 1] = high;
}

fn put4(out: &mut [u8], at: usize, low: u16, high: u16)
    requires { at + 4 ≤ length out.old }
    ensures { out.new ≡ sets out.old at (bytes_of 2 low ++ bytes_of 2 high) }
{
    put2(out, at, low);
    put2(out, at + 2, high);
}

// The word of the last command.
fn word_of(q: Packer) -> u16
    requires { (q.space ≤ 7) × (q.count ≤ 127) }
    ensures { result ≡ word_of (last_fields q) }
{
    let fields = Fields {
        write: q.write,
        address: true,
        info: false,
        space: q.space,
        size: space::row_of(q.space).size,
        increment: true,
        count: q.count,
    };
    word::word_of(fields).unwrap_or(0)
}

fn put_frame(out: &mut [u8], q: Packer)
    requires { Placed q (length out.old) }
    ensures { out.new ≡ framed_at q out.old }
{
    put4(out, q.frame, MARK, q.packet as u16);
}

// 01 D9 1A 00 02 5A: 0x5A02 written to the unlock cell.
fn put_unlock(out: &mut [u8], q: Packer)
    requires { Placed q (length out.old) }
    ensures { out.new ≡ unlocked_at q out.old }
{
    if q.unlock {
        let at = q.word - 6;
        put4(out, at, 0xD901, 0x001A);
        put2(out, at + 4, 0x5A02);
    }
}

fn put_head(out: &mut [u8], q: Packer)
    requires { Placed q (length out.old) }
    ensures { out.new ≡ headed_at q out.old }
{
    put4(out, q.word, word_of(q), q.address);
}

// The element's bytes, which stand behind a record's address.
fn put_element(out: &mut [u8], at: usize, rest: &[u8], n: usize)
    requires { (at + n ≤ length out.old) × (6 + n ≤ length rest.now) }
    ensures { out.new ≡ sets out.old at (take n (drop 6 rest.now)) }
{
    // Two or four bytes: a loop of so few costs less than the call of a copy.
    for i in 0..n {
        out[at + i] = rest[6 + i];
    }
}

// One record, of which the packer is already told; `n`: the bytes of its element.
pub(crate) fn put_record(out: &mut [u8], q: Packer, rest: &[u8], n: usize)
    requires { Placed q (length out.old) × (n ≤ 4) × (6 + n ≤ length rest.now) }
    ensures { out.new ≡ wrote q (take n (drop 6 rest.now)) out.old }
{
    put_frame(out, q);
    put_unlock(out, q);
    put_head(out, q);
    put_element(out, q.end - n, rest, n);
}

// Writes the packets of a list in which the first pass found no refusal, and for which it found room enough.
pub(crate) fn emit(list: &[u8], out: &mut [u8])
    requires { Ready list.now out.old }
    ensures { out.new ≡ room_after (planned Progress.none (records_of list.now)) out.old }
{
    let mut rest = list;
    let mut packer = Packer::empty();
    // Each turn needs the element's bytes, which stand behind the record that is read.
    while rest.len() != 0 {
        let r = records::whole_record(rest);
        packer = packer::turned(packer, r, space::row_of(r.space));
        put_record(out, packer, rest, packer::carried(r));
        let n = records::record_bytes(r.write);
        rest = &rest[n..];
    }
}
