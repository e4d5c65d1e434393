// What the second walk writes.
ghost use Rattle.std.specs.Prelude.{◌≡◌, [], ◌++◌, ◌+◌, ◌^◌, ◌%◌, ◌≤◌, ◌<◌, length, take, drop, set};
ghost use Rattle.std.proofs.lemmas.List.Edits.{sets};
ghost use Rattle.packet.specs.Bytes.{bytes_of};
ghost use Rattle.cue.specs.Output.{frame_mark, framed};
ghost use Rattle.capture.specs.Inside.{progress_listed, turn_listed, part_at, part_of, number_part, Fits};

use crate::datagram::Datagram;
use crate::turn::{Progress, Turn};

// The mark "LB" and a length.
fn put_head(out: &mut [u8], at: usize, n: usize)
    requires { (at + 4 ≤ length out.old) × (n < 65536) }
    ensures { out.new ≡ sets out.old at (bytes_of 2 frame_mark ++ bytes_of 2 n) }
{
    out[at] = 0x4C;
    out[at + 1] = 0x42;
    out[at + 2] = (n % 256) as u8;
    out[at + 3] = (n / 256) as u8;
}

fn copy(out: &mut [u8], at: usize, frame: &[u8], from: usize, n: usize)
    requires { (at + n ≤ length out.old) × (from + n ≤ length frame.now) }
    ensures { out.new ≡ sets out.old at (take n (drop from frame.now)) }
{
    for i in 0..n {
        out[at + i] = frame[from + i];
    }
}

// Mark, length and so many bytes of the frame.
fn put_framed(out: &mut [u8], at: usize, frame: &[u8], from: usize, n: usize)
    requires { (at + 4 + n ≤ length out.old) × (from + n ≤ length frame.now) × (n < 65536) }
    ensures { out.new ≡ sets out.old at (framed (take n (drop from frame.now))) }
{
    put_head(out, at, n);
    copy(out, at + 4, frame, from, n);
}

// The same, and behind it the frame of an empty reply.
fn put_request(out: &mut [u8], at: usize, frame: &[u8], from: usize, n: usize)
    requires { (at + 8 + n ≤ length out.old) × (from + n ≤ length frame.now) × (n < 65536) }
    ensures { out.new ≡ sets out.old at (framed (take n (drop from frame.now)) ++ framed []) }
{
    put_framed(out, at, frame, from, n);
    put_head(out, at + 4 + n, 0);
}

// The number of a frame, in 32 bits.
fn put_number(numbers: &mut [u32], at: usize, k: usize)
    requires { at < length numbers.old }
    ensures { numbers.new ≡ set numbers.old at (k % 2 ^ 32) }
{
    numbers[at] = (k % 4294967296) as u32;
}

// What a datagram in frame `k` adds to the recording and to the frames' numbers.
pub(crate) fn put(
    frame: &[u8],
    d: Datagram,
    t: Turn,
    p: Progress,
    k: usize,
    write: bool,
    out: &mut [u8],
    numbers: &mut [u32],
)
    requires { Fits write (progress_listed p) (turn_listed t) d (length frame.now) (length out.old) (length numbers.old) }
    ensures out_after { out.new ≡ sets out.old (part_at (progress_listed p) (turn_listed t)) (part_of write (turn_listed t) d frame.now) }
    ensures numbers_after { numbers.new ≡ sets numbers.old p.packets (number_part write (turn_listed t) k) }
{
    if !write {
        return;
    }
    match t {
        Turn::Other => {}
        Turn::Request => {
            put_request(out, p.bytes, frame, d.at, d.bytes);
            put_number(numbers, p.packets, k);
        }
        Turn::Reply => put_framed(out, p.bytes - 4, frame, d.at, d.bytes),
    }
}
