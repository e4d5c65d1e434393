// The text of each verdict.
ghost use Rattle.std.specs.Prelude.{◌≡◌, ◌++◌, ◌+◌, ◌≤◌, length};
ghost use Rattle.text.specs.Room.{filled, put_at};
ghost use Rattle.showcheck_output.specs.Findings.{named, yes_text, judgment_text};

use crate::{named, refused, replies};
use lbp16::pointer::Pointers;
use recording::Judgment;
use text::pick;

fn put_yes(room: &mut [u8], n: u64) -> usize
    ensures room_after { filled result room.new ≡ put_at (yes_text n) 0 room.old }
    ensures fits { length (yes_text n) ≤ 256 }
{
    let t = pick(n == 0, b" packets: nothing to judge\n", b" packets\n");
    named::put_between(room, 0, b"yes, ", n, t)
}

// A fault that has no more than a few words.
fn put_fault(room: &mut [u8], label: &[u8], n: u64, frames: &[u32], i: u64, words: &[u8]) -> usize
    ensures room_after { filled result room.new
        ≡ put_at (named label.now n frames.now i ++ words.now) 0 room.old }
    ensures within { length (named label.now n frames.now i ++ words.now)
        ≤ length label.now + length words.now + 49 }
{
    let next = named::put_named(room, 0, label, n, frames, i);
    text::put(room, next, words)
}

// `rest` begins with the last packet looked at, and `reply` with what the card answered last; it has this store and these pointers.
pub(crate) fn put_verdict(
    room: &mut [u8],
    judgment: Judgment,
    frames: &[u32],
    rest: &[u8],
    store: &[u8],
    p: Pointers,
    reply: &[u8],
) -> usize
    ensures room_after { filled result room.new
        ≡ put_at (judgment_text judgment frames.now rest.now store.now p reply.now) 0 room.old }
    ensures fits { length (judgment_text judgment frames.now rest.now store.now p reply.now) ≤ 24576 }
{
    match judgment {
        Judgment::Yes(n) => put_yes(room, n),
        Judgment::Refused(_) => why_output::put_said(room, 0, b"", store, p),
        Judgment::BadPacket(i) => refused::put_bad_packet(room, frames, i, rest, store, p),
        Judgment::BadLength(i) => put_fault(
            room,
            b"packet ",
            i,
            frames,
            i,
            b": its reply has another length\n",
        ),
        Judgment::BadByte { packet, place } => {
            replies::put_bad_byte(room, frames, packet, place, rest, reply)
        }
        Judgment::Cut(j) => put_fault(room, b"part ", j, frames, j / 2, b" is cut\n"),
        Judgment::Unmarked(j) => put_fault(room, b"part ", j, frames, j / 2, b" has no mark\n"),
    }
}
