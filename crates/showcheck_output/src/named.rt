// Packets and parts by their number, and by a frame where there are frames.
ghost use Rattle.std.specs.Prelude.{◌≡◌, ◌+◌, ◌≤◌, length};
ghost use Rattle.text.specs.Room.{filled, put_at};
ghost use Rattle.showcheck_output.specs.Findings.{between, frame_text, named};

use text::line;

// A number between two texts. Each answers the place behind what it put.
pub(crate) fn put_between(room: &mut [u8], at: usize, before: &[u8], n: u64, after: &[u8]) -> usize
    ensures room_after { filled result room.new ≡ put_at (between before.now n after.now) at room.old }
    ensures within { length (between before.now n after.now) ≤ length before.now + length after.now + 20 }
{
    let next = line::numbered(room, at, before, n);
    text::put(room, next, after)
}

// The frame of packet i.
fn put_frame(room: &mut [u8], at: usize, frames: &[u32], i: u64) -> usize
    ensures room_after { filled result room.new ≡ put_at (frame_text frames.now i) at room.old }
    ensures fits { length (frame_text frames.now i) ≤ 29 }
{
    let k = i as usize;
    if frames.len() <= k {
        return text::put(room, at, b"");
    }
    put_between(room, at, b" (frame ", frames[k] as u64, b")")
}

pub(crate) fn put_named(
    room: &mut [u8],
    at: usize,
    label: &[u8],
    n: u64,
    frames: &[u32],
    i: u64,
) -> usize
    ensures room_after { filled result room.new ≡ put_at (named label.now n frames.now i) at room.old }
    ensures within { length (named label.now n frames.now i) ≤ length label.now + 49 }
{
    let next = line::numbered(room, at, label, n);
    put_frame(room, next, frames, i)
}
