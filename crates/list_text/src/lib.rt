// A cue list written as text: a line for each record. A first pass checks and counts, and only the second writes, so that a refusal leaves the room as it is.
#![tactic(auto)]

ghost use Rattle.std.specs.Prelude.{◌≡◌, List, [], ◌∷◌, ◌++◌, false, ℕ, ◌+◌, ◌*◌, ◌≤◌, length, take};
ghost use Rattle.text.specs.Room.{filled, put_at};
ghost use Rattle.lbp16.specs.Answer.{Answer};
ghost use Rattle.lbp16.specs.Space.{space_of, is_absent, row};
ghost use Rattle.packet.specs.Bytes.{number};
ghost use Rattle.packet.specs.Step.{Step, is_info};
ghost use Rattle.packet.specs.Command.{pick_kind};
ghost use Rattle.cue.specs.Records.{records, records_of, record_step, record_at, bytes_of_value, brief};
ghost use Rattle.cue_text.specs.Assembled.{text_listed, left};
ghost use Rattle.space_text.specs.SpaceText.{space_word};
ghost use Rattle.list_text.specs.Written.{hex_word, kind_word, line_of, text_of, list_written};
ghost use Rattle.list_text.specs.Inside.{text_needed};
ghost use Rattle.list_text.specs.SameList.{SameList};

use cue::records;
use cue::records::Record;
use cue_text::{TextAnswer, Written};
use lbp16::Rule;
use packet::bytes;
use text::{number, pick};

// The bytes of a space's word.
fn word_bytes(space: u8) -> usize
    ensures { (result ≡ length (space_word (space_of space))) × (result ≤ 11) }
{
    match space {
        0 => 9,
        2 => 6,
        6 => 6,
        7 => 11,
        _ => 0,
    }
}

// The bytes of a record's line: of a write those of its value too, of an element of 4 bytes or of 2.
fn line_bytes(r: Record) -> usize
    ensures { ((x : Step) → r ≡ brief x → is_info x.kind ≡ false → is_absent x.space ≡ false → result ≡ length (line_of x)) × (result ≤ 36) }
{
    let read = 13 + word_bytes(r.space);
    if !r.write {
        return read;
    }
    if r.space == 0 { read + 12 } else { read + 8 }
}

// The bytes and lines that the list needs, or the refusal of its earliest bad record.
fn text_needed(list: &[u8]) -> TextAnswer
    ensures { text_listed result ≡ text_needed (records_of list.now) }
{
    let mut rest = list;
    let mut index: usize = 0;
    let mut bytes: usize = 0;
    // A record is judged by the list's bytes from it on, which `Records` does not give.
    while rest.len() != 0 {
        if let Err(rule) = records::record_refusal(rest, index) {
            return Err(rule.at(index as u64));
        }
        let r = records::record_at(rest);
        bytes += line_bytes(r);
        let n = records::record_bytes(r.write);
        rest = &rest[n..];
        index += 1;
    }
    Ok(Written {
        bytes,
        count: index,
    })
}

// So many digits behind 0x.
fn put_number(out: &mut [u8], at: usize, digits: usize, n: u64) -> usize
    ensures { filled result out.new ≡ put_at (hex_word digits n) at out.old }
{
    let at = text::put(out, at, b" 0x");
    number::hex(out, at, digits, n)
}

// Up to the address.
fn put_front(out: &mut [u8], at: usize, r: Record) -> usize
    ensures { filled result out.new
        ≡ put_at (kind_word (pick_kind r.write) ++ space_word (space_of r.space) ++ hex_word 4 r.address) at out.old }
{
    let at = text::put(out, at, pick(r.write, b"write ", b"read "));
    let at = space_text::put_word(out, at, r.space);
    put_number(out, at, 4, r.address as u64)
}

// The value of a write, with as many digits as its element.
fn put_value(out: &mut [u8], at: usize, space: u8, rest: &[u8]) -> usize
    requires { is_absent (space_of space) ≡ false }
    ensures { filled result out.new
        ≡ put_at (hex_word (2 * (row (space_of space)).element) (number (take (row (space_of space)).element (bytes_of_value rest.now))))
        at out.old }
{
    let low = bytes::pair_at(rest, 6) as u64;
    if space == 0 {
        let high = bytes::pair_at(rest, 8) as u64;
        return put_number(out, at, 8, low + 65536 * high);
    }
    put_number(out, at, 4, low)
}

// The line of the record at the front of `rest`.
fn put_line(out: &mut [u8], at: usize, r: Record, rest: &[u8]) -> usize
    requires { (r ≡ record_at rest.now) × (is_absent (space_of r.space) ≡ false) }
    ensures { filled result out.new ≡ put_at (line_of (record_step rest.now)) at out.old }
{
    let at = put_front(out, at, r);
    if r.write {
        let at = put_value(out, at, r.space, rest);
        return text::put(out, at, b"\n");
    }
    text::put(out, at, b"\n")
}

// The second pass, of a good list.
fn put_lines(list: &[u8], out: &mut [u8])
    requires { (xs : List Step) × (records_of list.now ≡ records xs) }
    ensures { (xs : List Step) → records_of list.now ≡ records xs
        → out.new ≡ (put_at (text_of xs) 0 out.old).room }
{
    let mut rest = list;
    let mut at: usize = 0;
    // A write's value is read from the list's bytes, which `Records` does not give.
    while rest.len() != 0 {
        let r = records::record_at(rest);
        at = put_line(out, at, r, rest);
        let n = records::record_bytes(r.write);
        rest = &rest[n..];
    }
}

// The text of a list, a line for each record. A bad list is refused as the compiler refuses it, and a good one with 26 where `out` is
// shorter than its text.
pub fn write(list: &[u8], out: &mut [u8]) -> TextAnswer
    ensures written { left result out.new ≡ list_written list.now out.old }
    ensures same_list { (bytes count : ℕ) → text_listed result ≡ Answer.accepted (bytes ∷ count ∷ [])
        → SameList list.now (take bytes out.new) }
{
    let needed = text_needed(list)?;
    if out.len() < needed.bytes {
        return Err(Rule::Room.at(needed.bytes as u64));
    }
    put_lines(list, out);
    Ok(needed)
}
