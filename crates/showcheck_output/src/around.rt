// The bytes around a place, in hexadecimal.
ghost use Rattle.std.specs.Prelude.{◌≡◌, ◌+◌, ◌-◌, min};
ghost use Rattle.text.specs.Room.{filled, put_at};
ghost use Rattle.showcheck_output.specs.Findings.{hex_line, around};

use text::{least, number};

// Each answers the place behind what it put.
fn put_line(room: &mut [u8], at: usize, label: &[u8], bytes: &[u8]) -> usize
    ensures { filled result room.new ≡ put_at (hex_line label.now bytes.now) at room.old }
{
    let next = text::put(room, at, label);
    let next = number::bytes(room, next, bytes);
    text::put(room, next, b"\n")
}

// The ends of a part that has the byte at `k` and at most four on each side of it, within `len` bytes.
fn behind_window(k: usize, len: usize) -> usize
    ensures { result ≡ min (k + 5) len }
{
    if len <= k { len } else { k + least(5, len - k) }
}

fn before_window(k: usize, end: usize) -> usize
    ensures { result ≡ min (k - 4) end }
{
    if k < 4 { 0 } else { least(k - 4, end) }
}

// A line of the byte at `k` and at most four on each side of it.
pub(crate) fn put_around(room: &mut [u8], at: usize, label: &[u8], bytes: &[u8], k: usize) -> usize
    ensures { filled result room.new ≡ put_at (hex_line label.now (around k bytes.now)) at room.old }
{
    let end = behind_window(k, bytes.len());
    let from = before_window(k, end);
    put_line(room, at, label, &bytes[from..end])
}
