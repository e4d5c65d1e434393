// What the program `why` writes: why a captured packet is refused, in words.
#![tactic(auto)]

pub mod given;
mod hex;
pub mod packets;
mod pointed;
pub mod words;

ghost use Rattle.std.specs.Prelude.{◌++◌, ◌≡◌, ◌≤◌, length, IfSome};
ghost use Rattle.cue.specs.Output.{front_of};
ghost use Rattle.reason.specs.Reason.{reason_listed};
ghost use Rattle.text.specs.Line.{numbered};
ghost use Rattle.text.specs.Number.{ascii};
ghost use Rattle.text.specs.Room.{filled, put_at, text_left};
ghost use Rattle.why_output.specs.Hex.{hex_of};
ghost use Rattle.why_output.specs.Wording.{accepted_text, front_text, said_of, said, state_text, judged_text};
ghost use Rattle.why_output.specs.Whole.{is_framed, framed_hint, hex_hint, bytes_text, hex_text, input_text, most_bytes, whole_text};

use card::check::STORE_BYTES;
use cue::frame;
use cue::frame::Frame;
use lbp16::pointer::Pointers;
use packet_text::command;
use reason::Reason;
use text::{line, number, pick};
use words::Words;

// The most bytes that the input may have.
const MOST: usize = 3000000;

// Each answers the place behind what it put.
fn accepted(out: &mut [u8], at: usize, packet: &[u8]) -> usize
    ensures { filled result out.new ≡ put_at (accepted_text packet.now) at out.old }
{
    let t = pick(packet.len() == 0, b"accepted, no commands\n", b"accepted\n");
    text::put(out, at, t)
}

// The bytes before a place; nothing where there are none.
fn front(out: &mut [u8], at: usize, packet: &[u8], place: u64) -> usize
    ensures { filled result out.new ≡ put_at (front_text packet.now place) at out.old }
{
    if place == 0 {
        return text::put(out, at, b"");
    }
    let at = line::numbered(out, at, b"the ", place);
    let at = text::put(out, at, b" bytes before it are an accepted packet:");
    let at = number::bytes(out, at, reason::front(packet, place));
    text::put(out, at, b"\n")
}

// Refusals 1 and 2 are of no command.
fn say(out: &mut [u8], at: usize, packet: &[u8], reason: Option<Reason>) -> usize
    requires { IfSome reason (λ r. 1 ≤ r.number) }
    ensures { filled result out.new ≡ put_at (said_of packet.now (reason_listed reason)) at out.old }
{
    let Some(r) = reason else {
        return accepted(out, at, packet);
    };
    let at = packet_text::put_refused(out, at, r);
    if r.number < 3 {
        return at;
    }
    let at = command::put_command(out, at, packet, r);
    front(out, at, packet, r.place)
}

// Why a packet is refused in this state, put at a place of the room.
pub fn put_said(room: &mut [u8], at: usize, packet: &[u8], store: &[u8], p: Pointers) -> usize
    ensures { filled result room.new ≡ put_at (said packet.now store.now p) at room.old }
{
    let r = reason::explain(packet, store, p);
    say(room, at, packet, r)
}

// From which state a packet is judged: whether its pointers were given, and whether a command of a packet before it uses one.
#[derive(Clone, Copy, Debug, PartialEq, Eq)]
pub(crate) struct Origin {
    pub(crate) given: bool,
    pub(crate) used: bool,
}

// It is said where a command uses a pointer.
fn put_state(room: &mut [u8], at: usize, from: Origin) -> usize
    ensures { filled result room.new ≡ put_at (state_text from.given from.used) at room.old }
{
    let t = pick(
        from.given,
        b"judged from the pointers given\n",
        b"judged from a fresh card\n",
    );
    text::put(room, at, pick(from.used, t, b""))
}

// The same with the state.
fn put_judged(
    room: &mut [u8],
    at: usize,
    from: Origin,
    packet: &[u8],
    store: &[u8],
    p: Pointers,
) -> usize
    ensures { filled result room.new
        ≡ put_at (judged_text from.given from.used packet.now store.now p) at room.old }
{
    let r = reason::explain(packet, store, p);
    let next = say(room, at, packet, r);
    let used = from.used | pointed::uses_pointer(packet, r);
    put_state(room, next, Origin { used, ..from })
}

fn is_framed(bytes: &[u8]) -> bool
    ensures { result ≡ is_framed (front_of bytes.now) }
{
    let frame = frame::frame_at(bytes);
    match frame {
        Frame::End => false,
        Frame::Cut => false,
        Frame::Unmarked => false,
        Frame::Whole(n) => 0 < n,
    }
}

fn put_framed_hint(room: &mut [u8], at: usize, bytes: &[u8]) -> usize
    ensures { filled result room.new ≡ put_at (framed_hint bytes.now) at room.old }
{
    let t = pick(
        is_framed(bytes),
        b"the input looks like packets behind \"LB\": try --lb\n",
        b"",
    );
    text::put(room, at, t)
}

fn put_hex_hint(room: &mut [u8], at: usize, input: &[u8]) -> usize
    ensures { filled result room.new ≡ put_at (hex_hint input.now) at room.old }
{
    let t = pick(
        hex::looks_hex(input),
        b"the input looks like hexadecimal text: try --hex\n",
        b"",
    );
    text::put(room, at, t)
}

fn put_bytes(room: &mut [u8], w: Words, bytes: &[u8], p: Pointers) -> usize
    ensures { filled result room.new ≡ put_at (bytes_text w bytes.now p) 0 room.old }
{
    let mut store = [0u8; STORE_BYTES];
    let given = w.name.is_some();
    if w.lb {
        return packets::put_packets(room, given, bytes, &mut store, p);
    }
    let from = Origin { given, used: false };
    let at = put_judged(room, 0, from, bytes, &store, p);
    put_framed_hint(room, at, bytes)
}

fn put_bad(room: &mut [u8], k: usize) -> usize
    ensures { filled result room.new ≡ put_at (numbered (ascii "no hexadecimal digit at byte ") k ++ ascii "\n") 0 room.old }
{
    let at = line::numbered(room, 0, b"no hexadecimal digit at byte ", k as u64);
    text::put(room, at, b"\n")
}

// `bytes` has space for all that the text says.
fn put_hex(room: &mut [u8], w: Words, text: &[u8], p: Pointers, bytes: &mut [u8; 1500000]) -> usize
    requires { length text.now ≤ most_bytes }
    ensures { filled result room.new ≡ put_at (hex_text w (hex_of text.now) p) 0 room.old }
{
    let found = hex::read(text, bytes);
    match found {
        Err(e) => put_bad(room, e.place),
        Ok(n) => put_bytes(room, w, reason::front(bytes, n as u64), p),
    }
}

fn put_input(room: &mut [u8], w: Words, input: &[u8], p: Pointers) -> usize
    ensures { filled result room.new ≡ put_at (input_text w input.now p) 0 room.old }
{
    if MOST < input.len() {
        return line::too_long(room, 0);
    }
    if w.hex {
        return put_hex(room, w, input, p, &mut [0; 1500000]);
    }
    let at = put_bytes(room, w, input, p);
    put_hex_hint(room, at, input)
}

// What is written: `found`: whether the file named can be opened, `file`: what it has.
fn written(w: Words, found: bool, file: &[u8], input: &[u8], room: &mut [u8]) -> usize
    ensures { filled result room.new
        ≡ put_at (whole_text w found file.now input.now) 0 room.old }
{
    if w.wrong {
        return words::put_usage(room);
    }
    if w.name.is_none() {
        return put_input(room, w, input, Pointers::fresh());
    }
    if !found {
        return text::put(room, 0, b"the file of pointers cannot be opened\n");
    }
    if file.len() != 32 {
        return text::put(room, 0, b"the file of pointers is not 32 bytes long\n");
    }
    put_input(room, w, input, given::pointers_in(file))
}

// The bytes to write stand at the front of the room; how many they are is answered.
pub fn whole(w: Words, found: bool, file: &[u8], input: &[u8], room: &mut [u8; 16384]) -> usize
    ensures { filled result room.new
        ≡ text_left (whole_text w found file.now input.now) room.old }
{
    written(w, found, file, input, room)
}
