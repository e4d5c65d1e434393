// Frames: the mark "LB", a length and so many bytes, one behind the other.
ghost use Rattle.std.specs.Prelude.{◌≡◌};
ghost use Rattle.cue.specs.Output.{front_of, frame_listed};

use packet::bytes;
use packet::command::LIMIT;

// "LB", low byte first.
pub const MARK: u16 = 0x424C;

// The most bytes of a packet's frame: mark, length and packet.
pub const ROOM: usize = LIMIT + 4;

// What stands at the front of bytes.
#[derive(Clone, Copy, Debug, PartialEq, Eq)]
pub enum Frame {
    End,
    Cut,
    Unmarked,
    // So many bytes, behind mark and length.
    Whole(usize),
}

pub fn frame_at(rest: &[u8]) -> Frame
    ensures { frame_listed result ≡ front_of rest.now }
{
    if rest.len() == 0 {
        return Frame::End;
    }
    if rest.len() < 2 {
        return Frame::Cut;
    }
    if bytes::pair_at(rest, 0) != MARK {
        return Frame::Unmarked;
    }
    let n = bytes::pair_at(rest, 2) as usize;
    if rest.len() < 4 + n {
        return Frame::Cut;
    }
    Frame::Whole(n)
}
