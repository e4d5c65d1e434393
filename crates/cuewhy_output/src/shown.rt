// A record in words.
ghost use Rattle.std.specs.Prelude.{◌≡◌};
ghost use Rattle.text.specs.Room.{filled, put_at};
ghost use Rattle.cuewhy_output.specs.Wording.{upper_digits, value_text, record_text};

use cue::records::Record;
use lbp16::space;
use packet::bytes;
use text::{number, pick};

fn upper_digits(n: u8, upper: u16) -> usize
    ensures { result ≡ upper_digits n upper }
{
    let row = space::row_of(n);
    if (row.element == 2) & (upper == 0) {
        0
    } else {
        4
    }
}

fn put_value(out: &mut [u8], at: usize, n: u8, rest: &[u8]) -> usize
    ensures { filled result out.new ≡ put_at (value_text n rest.now) at out.old }
{
    let upper = bytes::pair_at(rest, 8);
    let at = text::put(out, at, b" 0x");
    let at = number::hex(out, at, upper_digits(n, upper), upper as u64);
    number::hex(out, at, 4, bytes::pair_at(rest, 6) as u64)
}

pub(crate) fn put_record(out: &mut [u8], at: usize, r: Record, rest: &[u8]) -> usize
    ensures { filled result out.new ≡ put_at (record_text r rest.now) at out.old }
{
    let at = text::put(out, at, pick(r.write, b"write ", b"read "));
    let at = space_text::put_space(out, at, r.space);
    let at = text::put(out, at, b" 0x");
    let at = number::hex(out, at, 4, r.address as u64);
    if !r.write {
        return at;
    }
    put_value(out, at, r.space, rest)
}
