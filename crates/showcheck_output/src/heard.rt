// What is said of a capture: what its packets are found to be, or why it is not read.
ghost use Rattle.std.specs.Prelude.{◌≡◌, ◌≤◌, length, take};
ghost use Rattle.packet.specs.Bytes.{number};
ghost use Rattle.capture.specs.Capture.{captured};
ghost use Rattle.text.specs.Room.{filled, put_at};
ghost use Rattle.showcheck_output.specs.Findings.{most_bytes};
ghost use Rattle.showcheck_output.specs.Input.{is_capture, is_pcapng, pcapng_text, frame_sentence, unread_text, capture_text};
ghost use Rattle.showcheck_output.specs.Inside.{read_text};

use crate::{MOST, put_judged};
use lbp16::pointer::Pointers;
use packet::command::LIMIT;
use text::{least, line, pick};
use why_output::given;

// The most packets of a capture: a request's frame has at least 44 bytes.
const PACKETS: usize = 68182;

// The number in the first four bytes, low byte first.
pub(crate) fn first_number(input: &[u8]) -> u32
    ensures { result ≡ number (take 4 input.now) }
{
    given::first_number(input)
}

#[tactic(auto, using(std::proofs::lemmas::Bool::Decides::nat_tests), unfolding(crate::specs::Input::is_capture))]
pub(crate) fn is_capture(n: u32) -> bool
    ensures { result ≡ is_capture n }
{
    matches!(n, 0xA1B2C3D4 | 0xD4C3B2A1 | 0xA1B23C4D | 0x4D3CB2A1)
}

pub(crate) fn is_pcapng(n: u32) -> bool
    ensures { result ≡ is_pcapng n }
{
    n == 0x0A0D0D0A
}

pub(crate) fn put_pcapng(room: &mut [u8]) -> usize
    ensures { filled result room.new ≡ put_at pcapng_text 0 room.old }
{
    text::put(
        room,
        0,
        b"a pcapng file, which is not read here: editcap -F pcap IN OUT makes a capture of it that is\n",
    )
}

fn put_sentence(room: &mut [u8], at: usize, number: u32) -> usize
    ensures { filled result room.new ≡ put_at (frame_sentence number) at room.old }
{
    let t = pick(
        number == 93,
        b"a datagram of the card is not whole: more fragments follow, its lengths differ, or bytes were not captured\n",
        b"a second reply to a request\n",
    );
    let t = pick(
        number == 92,
        b"fewer bytes than the frame's header has, or than it says were captured\n",
        t,
    );
    text::put(room, at, t)
}

// The number itself is said.
fn put_unread(room: &mut [u8], number: u32, place: u64) -> usize
    ensures room_after { filled result room.new ≡ put_at (unread_text number place) 0 room.old }
    ensures fits { length (unread_text number place) ≤ 24576 }
{
    if number < 91 {
        return line::too_long(room, 0);
    }
    if number == 91 {
        return text::put(
            room,
            0,
            b"refused 91: no capture that is read here: fewer than 24 bytes, or another link type\n",
        );
    }
    let next = line::numbered(room, 0, b"refused ", number as u64);
    let next = line::numbered(room, next, b" at frame ", place);
    let next = text::put(room, next, b": ");
    put_sentence(room, next, number)
}

fn put_read(
    room: &mut [u8],
    capture: &[u8],
    store: &mut [u8],
    p: Pointers,
    out: &mut [u8],
    frames: &mut [u32],
) -> usize
    ensures room_after { filled result room.new
        ≡ put_at (read_text (captured capture.now out.old frames.old) store.old p) 0 room.old }
    ensures fits { length (read_text (captured capture.now out.old frames.old) store.old p) ≤ 24576 }
{
    let answer = capture::read(capture, out, frames);
    match answer {
        Ok(recorded) => {
            let n = least(recorded.bytes, out.len());
            let m = least(recorded.packets, frames.len());
            put_judged(room, &out[..n], &frames[..m], store, p, &mut [0; LIMIT])
        }
        Err(r) => put_unread(room, r.rule.number(), r.place),
    }
}

// The recording and the frames of its packets are made in the rooms lent.
fn put_rooms(
    room: &mut [u8],
    capture: &[u8],
    store: &mut [u8],
    p: Pointers,
    out: &mut [u8; MOST],
    frames: &mut [u32; PACKETS],
) -> usize
    requires { length capture.now ≤ most_bytes }
    ensures room_after { filled result room.new ≡ put_at (capture_text capture.now store.old p) 0 room.old }
    ensures fits { length (capture_text capture.now store.old p) ≤ 24576 }
{
    put_read(room, capture, store, p, out, frames)
}

pub(crate) fn put_capture(room: &mut [u8], capture: &[u8], store: &mut [u8], p: Pointers) -> usize
    ensures room_after { filled result room.new ≡ put_at (capture_text capture.now store.old p) 0 room.old }
    ensures fits { length (capture_text capture.now store.old p) ≤ 24576 }
{
    if MOST < capture.len() {
        return line::too_long(room, 0);
    }
    put_rooms(room, capture, store, p, &mut [0; MOST], &mut [0; PACKETS])
}
