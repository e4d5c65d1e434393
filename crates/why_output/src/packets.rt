// Packets behind "LB", judged one after the other.
ghost use Rattle.std.specs.Prelude.{◌++◌, ◌≡◌, ◌≤◌, length, replicate};
ghost use Rattle.packet.specs.Command.{limit};
ghost use Rattle.card.specs.Run.{run_packet};
ghost use Rattle.cue.specs.Output.{bytes_in_frame};
ghost use Rattle.text.specs.Room.{filled, put_at};
ghost use Rattle.why_output.specs.Pointed.{pointed_to};
ghost use Rattle.why_output.specs.Wording.{state_text};
ghost use Rattle.why_output.specs.Packets.{part_left, ran_left, part_at};
ghost use Rattle.why_output.specs.Packets.{all_text, shown_bytes, shown_text, fault_text, stop_text, packets_text};

use crate::{Origin, pointed};
use card::run;
use cue::frame;
use cue::frame::Frame;
use lbp16::pointer::Pointers;
use packet::command::LIMIT;
use reason::slice;
use text::{line, number, pick};

// Why no accepted packet stands at the front; a refused one by its bytes.
#[derive(Clone, Copy, Debug, PartialEq, Eq)]
pub enum Stop {
    End,
    Cut,
    Unmarked,
    Refused(usize),
}

// The bytes of the accepted packet at the front, or why none stands there, and the pointers then.
#[derive(Clone, Copy)]
pub struct Passed {
    pub part: Result<usize, Stop>,
    pub pointers: Pointers,
}

// The bytes in the frame at the front, if it has n.
pub fn in_frame(rest: &[u8], n: usize) -> &[u8]
    ensures { result.now ≡ bytes_in_frame n rest.now }
{
    reason::front(slice::rest(rest, 4), n as u64)
}

// Runs the packet of n bytes at the front.
fn ran_at(rest: &[u8], n: usize, store: &mut [u8], p: Pointers) -> Passed
    ensures { part_left result.part store.new result.pointers
        ≡ ran_left n (run_packet (bytes_in_frame n rest.now) store.old p (replicate limit 0)) }
{
    let mut reply = [0u8; LIMIT];
    let ran = run::run(in_frame(rest, n), store, p, &mut reply);
    let pointers = ran.pointers;
    let answer = ran.answer;
    match answer {
        Ok(_) => Passed {
            part: Ok(n),
            pointers,
        },
        Err(_) => Passed {
            part: Err(Stop::Refused(n)),
            pointers,
        },
    }
}

fn part_at(rest: &[u8], store: &mut [u8], p: Pointers) -> Passed
    ensures { part_left result.part store.new result.pointers ≡ part_at rest.now store.old p }
{
    let frame = frame::frame_at(rest);
    match frame {
        Frame::End => Passed {
            part: Err(Stop::End),
            pointers: p,
        },
        Frame::Cut => Passed {
            part: Err(Stop::Cut),
            pointers: p,
        },
        Frame::Unmarked => Passed {
            part: Err(Stop::Unmarked),
            pointers: p,
        },
        Frame::Whole(n) => ran_at(rest, n, store, p),
    }
}

// Each answers the place behind what it put.
fn put_all(room: &mut [u8], n: u64) -> usize
    ensures { filled result room.new ≡ put_at (all_text n) 0 room.old }
{
    if n == 0 {
        return text::put(room, 0, b"accepted, no packets\n");
    }
    let at = line::numbered(room, 0, b"accepted, ", n);
    text::put(room, at, pick(n == 1, b" packet\n", b" packets\n"))
}

// A packet's bytes; of one above 1,472 their number and the first 16.
pub fn put_bytes(room: &mut [u8], at: usize, packet: &[u8]) -> usize
    ensures room_after { filled result room.new ≡ put_at (shown_bytes packet.now) at room.old }
    ensures fits { length (shown_bytes packet.now) ≤ 4416 }
{
    if packet.len() <= LIMIT {
        return number::bytes(room, at, packet);
    }
    let next = line::numbered(room, at, b" ", packet.len() as u64);
    let next = text::put(room, next, b" bytes, the first 16:");
    number::bytes(room, next, &packet[..16])
}

fn put_shown(room: &mut [u8], i: u64, packet: &[u8]) -> usize
    ensures { filled result room.new ≡ put_at (shown_text i packet.now) 0 room.old }
{
    let at = line::numbered(room, 0, b"packet ", i);
    let at = text::put(room, at, b" is refused:");
    let at = put_bytes(room, at, packet);
    text::put(room, at, b"\n")
}

fn put_fault(room: &mut [u8], i: u64, words: &[u8], from: Origin) -> usize
    ensures { filled result room.new
        ≡ put_at (fault_text i words.now ++ state_text from.given from.used) 0 room.old }
{
    let at = line::numbered(room, 0, b"part ", i);
    let at = text::put(room, at, words);
    crate::put_state(room, at, from)
}

fn put_end(room: &mut [u8], i: u64, from: Origin) -> usize
    ensures { filled result room.new ≡ put_at (all_text i ++ state_text from.given from.used) 0 room.old }
{
    let at = put_all(room, i);
    crate::put_state(room, at, from)
}

fn put_stop(
    room: &mut [u8],
    stop: Stop,
    from: Origin,
    i: u64,
    rest: &[u8],
    store: &[u8],
    p: Pointers,
) -> usize
    ensures { filled result room.new
        ≡ put_at (stop_text stop from.given i from.used rest.now store.now p) 0 room.old }
{
    match stop {
        Stop::End => put_end(room, i, from),
        Stop::Cut => put_fault(room, i, b" is cut\n", from),
        Stop::Unmarked => put_fault(room, i, b" has no mark\n", from),
        Stop::Refused(n) => {
            let packet = in_frame(rest, n);
            let at = put_shown(room, i, packet);
            crate::put_judged(room, at, from, packet, store, p)
        }
    }
}

// Whether a command of an accepted packet uses a pointer.
fn pointed_in(packet: &[u8]) -> bool
    ensures { result ≡ pointed_to (length packet.now) packet.now }
{
    pointed::pointed_to(packet, packet.len())
}

pub(crate) fn put_packets(
    room: &mut [u8],
    given: bool,
    bytes: &[u8],
    store: &mut [u8],
    p: Pointers,
) -> usize
    ensures { filled result room.new ≡ put_at (packets_text given bytes.now store.old p) 0 room.old }
{
    let mut pointers = p;
    let mut from = Origin { given, used: false };
    let mut i: u64 = 0;
    let mut rest = bytes;
    // Where the next packet begins is known only once this one is judged.
    loop {
        let next = part_at(rest, store, pointers);
        let part = next.part;
        pointers = next.pointers;
        match part {
            Err(stop) => return put_stop(room, stop, from, i, rest, store, pointers),
            Ok(n) => {
                from.used = from.used | pointed_in(in_frame(rest, n));
                i += 1;
                rest = &rest[4 + n..];
            }
        }
    }
}
