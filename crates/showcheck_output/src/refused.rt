// A packet that is refused: its bytes, and what `why` says of it in the state that the card then has.
ghost use Rattle.std.specs.Prelude.{◌≡◌, ◌≤◌, length};
ghost use Rattle.cue.specs.Output.{front_of};
ghost use Rattle.text.specs.Room.{filled, put_at};
ghost use Rattle.showcheck_output.specs.Findings.{shown_text, unanswered, unanswered_text, refused_text, bad_packet_text};

use crate::{named, replies};
use cue::frame;
use cue::frame::Frame;
use lbp16::pointer::Pointers;
use text::{least, pick};
use why_output::packets;

// Each answers the place behind what it put.
fn put_shown(room: &mut [u8], frames: &[u32], i: u64, packet: &[u8]) -> usize
    ensures room_after { filled result room.new ≡ put_at (shown_text frames.now i packet.now) 0 room.old }
    ensures fits { length (shown_text frames.now i packet.now) ≤ 4485 }
{
    let next = named::put_named(room, 0, b"packet ", i, frames, i);
    let next = text::put(room, next, b" is refused:");
    let next = packets::put_bytes(room, next, packet);
    text::put(room, next, b"\n")
}

fn has_none(behind: &[u8]) -> bool
    ensures { result ≡ unanswered (front_of behind.now) }
{
    let frame = frame::frame_at(behind);
    match frame {
        Frame::End => true,
        Frame::Cut => false,
        Frame::Unmarked => false,
        Frame::Whole(n) => n == 0,
    }
}

fn put_unanswered(room: &mut [u8], at: usize, behind: &[u8]) -> usize
    ensures { filled result room.new ≡ put_at (unanswered_text behind.now) at room.old }
{
    let t = pick(
        has_none(behind),
        b"it has no reply: a card does not answer what it refuses\n",
        b"",
    );
    text::put(room, at, t)
}

fn put_refused(
    room: &mut [u8],
    frames: &[u32],
    i: u64,
    packet: &[u8],
    behind: &[u8],
    store: &[u8],
    p: Pointers,
) -> usize
    ensures room_after { filled result room.new
        ≡ put_at (refused_text frames.now i packet.now behind.now store.now p) 0 room.old }
    ensures fits { length (refused_text frames.now i packet.now behind.now store.now p) ≤ 24576 }
{
    let next = put_shown(room, frames, i, packet);
    let next = why_output::put_said(room, next, packet, store, p);
    put_unanswered(room, next, behind)
}

// `rest` begins with the packet.
pub(crate) fn put_bad_packet(
    room: &mut [u8],
    frames: &[u32],
    i: u64,
    rest: &[u8],
    store: &[u8],
    p: Pointers,
) -> usize
    ensures room_after { filled result room.new
        ≡ put_at (bad_packet_text frames.now i rest.now store.now p) 0 room.old }
    ensures fits { length (bad_packet_text frames.now i rest.now store.now p) ≤ 24576 }
{
    let end = replies::frame_end(rest);
    let start = least(4, end);
    put_refused(room, frames, i, &rest[start..end], &rest[end..], store, p)
}
