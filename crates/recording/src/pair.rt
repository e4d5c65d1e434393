// One packet of a recording with its reply.
ghost use Rattle.std.specs.Prelude.{◌≡◌, ◌+◌, ◌^◌, ◌<◌, ◌≤◌, length, unwrap_or, IfSome};
ghost use Rattle.cue.specs.Output.{front_of, bytes_in_frame};
ghost use Rattle.packet.specs.Command.{limit};
ghost use Rattle.card.specs.Run.{run_packet};
ghost use Rattle.recording.specs.Recording.{first_wrong, reply_pair, pair_left, ran_pair, pair_at};

use card::run;
use cue::frame;
use cue::frame::Frame;
use lbp16::pointer::Pointers;

// What is found: a fault of the packet or of its reply, or none. Cut and unmarked say whether it is the reply's part.
#[derive(Clone, Copy, Debug, PartialEq, Eq)]
pub enum Pair {
    // No bytes are left.
    End,
    // Both are as they should be; the bytes that they take, marks and lengths included.
    Good(usize),
    Refused,
    WrongLength,
    // The place of the first wrong byte in the reply.
    WrongByte(usize),
    Cut(bool),
    Unmarked(bool),
}

// What is found, and the pointers that the packet leaves.
#[derive(Clone, Copy)]
pub struct PairRan {
    pub pair: Pair,
    pub pointers: Pointers,
}

// The place of the first byte of `found` that isn't as expected.
fn first_wrong(expected: &[u8], found: &[u8]) -> Option<usize>
    requires { length expected.now ≡ length found.now }
    ensures place { unwrap_or result (length expected.now) ≡ first_wrong expected.now found.now }
    ensures inside { IfSome result (λ k. k < length expected.now) }
{
    for i in 0..expected.len() {
        if expected[i] != found[i] {
            return Some(i);
        }
    }
    None
}

// The reply behind a packet of `n` bytes. Its length is judged before its bytes.
fn reply_at(expected: &[u8], behind: &[u8], n: usize) -> Pair
    requires { 4 + n + length behind.now < 2 ^ 64 }
    ensures { result ≡ reply_pair (front_of behind.now) n expected.now behind.now }
{
    let frame = frame::frame_at(behind);
    match frame {
        Frame::End => Pair::Cut(true),
        Frame::Cut => Pair::Cut(true),
        Frame::Unmarked => Pair::Unmarked(true),
        Frame::Whole(m) => {
            if m != expected.len() {
                return Pair::WrongLength;
            }
            let end = 4 + m;
            if let Some(k) = first_wrong(expected, &behind[4..end]) {
                return Pair::WrongByte(k);
            }
            Pair::Good(8 + n + m)
        }
    }
}

// Runs the packet of `n` bytes at the front and judges its reply. Afterwards the packet's own reply stands in the room.
fn whole_at(rest: &[u8], n: usize, store: &mut [u8], p: Pointers, room: &mut [u8]) -> PairRan
    requires { (4 + n ≤ length rest.now) × (length room.old ≡ limit) }
    ensures { pair_left result.pair store.new result.pointers room.new
        ≡ ran_pair n rest.now
        (run_packet (bytes_in_frame n rest.now) store.old p room.old) }
{
    let end = 4 + n;
    let ran = run::run(&rest[4..end], store, p, room);
    let pointers = ran.pointers;
    let answer = ran.answer;
    let Ok(value) = answer else {
        return PairRan {
            pair: Pair::Refused,
            pointers,
        };
    };
    let length = value as usize;
    let pair = reply_at(&room[..length], &rest[end..], n);
    PairRan { pair, pointers }
}

// What is found at the front, and what the packet leaves if there is a whole one.
pub(crate) fn pair_at(rest: &[u8], store: &mut [u8], p: Pointers, room: &mut [u8]) -> PairRan
    requires { length room.old ≡ limit }
    ensures { pair_left result.pair store.new result.pointers room.new
        ≡ pair_at rest.now store.old p room.old }
{
    let frame = frame::frame_at(rest);
    match frame {
        Frame::End => PairRan {
            pair: Pair::End,
            pointers: p,
        },
        Frame::Cut => PairRan {
            pair: Pair::Cut(false),
            pointers: p,
        },
        Frame::Unmarked => PairRan {
            pair: Pair::Unmarked(false),
            pointers: p,
        },
        Frame::Whole(n) => whole_at(rest, n, store, p, room),
    }
}
