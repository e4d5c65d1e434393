// A packet and its reply in the bytes from the packet on, and both replies around a byte that is wrong.
ghost use Rattle.std.specs.Prelude.{◌≡◌, ◌≤◌, length};
ghost use Rattle.cue.specs.Output.{front_of};
ghost use Rattle.text.specs.Room.{filled, put_at};
ghost use Rattle.showcheck_output.specs.Findings.{frame_end, bytes_of_front, both_replies, replies_text, bad_byte_text};

use crate::{around, named};
use cue::frame;
use cue::frame::Frame;
use text::least;

// The bytes of the whole frame at the front, mark and length included, and none where there is no such frame.
pub(crate) fn frame_end(rest: &[u8]) -> usize
    ensures { result ≡ frame_end (front_of rest.now) }
{
    let frame = frame::frame_at(rest);
    match frame {
        Frame::End => 0,
        Frame::Cut => 0,
        Frame::Unmarked => 0,
        Frame::Whole(n) => 4 + n,
    }
}

// The reply that the card gave and the one found, around the byte at `k`. Each answers the place behind what it put.
fn put_both(room: &mut [u8], at: usize, found: &[u8], reply: &[u8], k: usize) -> usize
    ensures { filled result room.new ≡ put_at (both_replies found.now reply.now k) at room.old }
{
    let own = least(found.len(), reply.len());
    let next = around::put_around(room, at, b"expected", &reply[..own], k);
    around::put_around(room, next, b"found   ", found, k)
}

// `behind` begins with the reply.
fn put_behind(room: &mut [u8], at: usize, behind: &[u8], reply: &[u8], k: usize) -> usize
    ensures { filled result room.new ≡ put_at (both_replies (bytes_of_front behind.now) reply.now k) at room.old }
{
    let end = frame_end(behind);
    let start = least(4, end);
    put_both(room, at, &behind[start..end], reply, k)
}

// `rest` begins with the packet.
fn put_replies(room: &mut [u8], at: usize, rest: &[u8], reply: &[u8], k: usize) -> usize
    ensures { filled result room.new ≡ put_at (replies_text rest.now reply.now k) at room.old }
{
    let n = frame_end(rest);
    put_behind(room, at, &rest[n..], reply, k)
}

pub(crate) fn put_bad_byte(
    room: &mut [u8],
    frames: &[u32],
    packet: u64,
    place: u64,
    rest: &[u8],
    reply: &[u8],
) -> usize
    ensures room_after { filled result room.new
        ≡ put_at (bad_byte_text frames.now packet place rest.now reply.now) 0 room.old }
    ensures fits { length (bad_byte_text frames.now packet place rest.now reply.now) ≤ 256 }
{
    let next = named::put_named(room, 0, b"packet ", packet, frames, packet);
    let next = named::put_between(room, next, b", byte ", place, b" of its reply is wrong\n");
    put_replies(room, next, rest, reply, place as usize)
}
