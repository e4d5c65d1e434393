// What the judging program writes: `yes` and the number of packets, or what is at fault in a recorded show.
#![tactic(auto)]

use card::check::STORE_BYTES;
use given::{Fault, Given};
use lbp16::pointer::Pointers;
use packet::command::LIMIT;
use text::{least, line};

mod around;
pub mod given;
mod heard;
mod named;
mod refused;
mod replies;
mod verdict;

ghost use Rattle.std.specs.Prelude.{◌≡◌, ◌≤◌, length};
ghost use Rattle.lbp16.specs.Space.{store_bytes};
ghost use Rattle.text.specs.Room.{filled, put_at, text_left};
ghost use Rattle.showcheck_output.specs.Findings.{judged_text, recording_text, said};
ghost use Rattle.showcheck_output.specs.Input.{input_text};
ghost use Rattle.showcheck_output.specs.Given.{usage_text, stored_text, pointed_text, given_text, fault_text, whole_text};

// The most bytes that a recording or a capture may have.
pub(crate) const MOST: usize = 3000000;

// Judges a recording on a card with this store and these pointers. `then` are those that it has when it is done.
pub(crate) fn put_judged(
    room: &mut [u8],
    recording: &[u8],
    frames: &[u32],
    store: &mut [u8],
    p: Pointers,
    reply: &mut [u8; LIMIT],
) -> usize
    ensures room_after { filled result room.new
        ≡ put_at (judged_text recording.now frames.now store.old p reply.old) 0 room.old }
    ensures fits { length (judged_text recording.now frames.now store.old p reply.old) ≤ 24576 }
{
    let judged = recording::judge_in(recording, store, p, reply);
    let judgment = judged.judgment;
    let then = judged.pointers;
    let at = least(judged.at, recording.len());
    verdict::put_verdict(room, judgment, frames, &recording[at..], store, then, reply)
}

// A recording has no frames.
fn put_recording(room: &mut [u8], recording: &[u8], store: &mut [u8], p: Pointers) -> usize
    ensures room_after { filled result room.new ≡ put_at (recording_text recording.now store.old p) 0 room.old }
    ensures fits { length (recording_text recording.now store.old p) ≤ 24576 }
{
    if MOST < recording.len() {
        return line::too_long(room, 0);
    }
    put_judged(room, recording, &[0; 0], store, p, &mut [0; LIMIT])
}

fn put_input(room: &mut [u8], input: &[u8], store: &mut [u8], p: Pointers) -> usize
    ensures room_after { filled result room.new ≡ put_at (input_text input.now store.old p) 0 room.old }
    ensures fits { length (input_text input.now store.old p) ≤ 24576 }
{
    let n = heard::first_number(input);
    if heard::is_pcapng(n) {
        return heard::put_pcapng(room);
    }
    if heard::is_capture(n) {
        return heard::put_capture(room, input, store, p);
    }
    put_recording(room, input, store, p)
}

// The store lent becomes what the file has.
fn put_from(
    room: &mut [u8],
    input: &[u8],
    file: &[u8],
    store: &mut [u8; STORE_BYTES],
    p: Pointers,
) -> usize
    requires { length file.now ≡ store_bytes }
    ensures room_after { filled result room.new ≡ put_at (input_text input.now file.now p) 0 room.old }
    ensures fits { length (input_text input.now file.now p) ≤ 24576 }
{
    text::put(store, 0, file);
    put_input(room, input, store, p)
}

fn put_stored(room: &mut [u8], input: &[u8], file: &[u8], p: Pointers) -> usize
    ensures room_after { filled result room.new ≡ put_at (stored_text file.now input.now p) 0 room.old }
    ensures fits { length (stored_text file.now input.now p) ≤ 24576 }
{
    if file.len() != STORE_BYTES {
        return text::put(room, 0, b"the file of the store is not 65,728 bytes long\n");
    }
    put_from(room, input, file, &mut [0; STORE_BYTES], p)
}

fn put_pointed(room: &mut [u8], input: &[u8], file: &[u8], pointers: &[u8]) -> usize
    ensures room_after { filled result room.new
        ≡ put_at (pointed_text file.now pointers.now input.now) 0 room.old }
    ensures fits { length (pointed_text file.now pointers.now input.now) ≤ 24576 }
{
    if pointers.len() != 32 {
        return text::put(room, 0, b"the file of pointers is not 32 bytes long\n");
    }
    put_stored(room, input, file, why_output::given::pointers_in(pointers))
}

fn put_usage(room: &mut [u8]) -> usize
    ensures { filled result room.new ≡ put_at usage_text 0 room.old }
{
    let next = text::put(room, 0, b"usage: showcheck [STORE [POINTERS]] < INPUT\n");
    let next = text::put(
        room,
        next,
        b"INPUT is a recording or a capture (classic pcap) of at most 3,000,000 bytes. STORE is a file of the card's memory\n",
    );
    text::put(
        room,
        next,
        b"before the first packet, 65,728 bytes, POINTERS one of its eight pointers, 32 bytes; a fresh card has zeros.\n",
    )
}

// `file` is what the file of the store has.
fn put_given(room: &mut [u8], given: Given, file: &[u8], pointers: &[u8], input: &[u8]) -> usize
    ensures room_after { filled result room.new
        ≡ put_at (given_text given file.now pointers.now input.now) 0 room.old }
    ensures fits { length (given_text given file.now pointers.now input.now) ≤ 24576 }
{
    match given {
        Given::Nothing => put_input(room, input, &mut [0; STORE_BYTES], Pointers::fresh()),
        Given::Store => put_stored(room, input, file, Pointers::fresh()),
        Given::Both => put_pointed(room, input, file, pointers),
    }
}

fn put_fault(room: &mut [u8], fault: Fault) -> usize
    ensures room_after { filled result room.new ≡ put_at (fault_text fault) 0 room.old }
    ensures fits { length (fault_text fault) ≤ 24576 }
{
    match fault {
        Fault::NoStore => text::put(room, 0, b"the file of the store cannot be opened\n"),
        Fault::NoPointers => text::put(room, 0, b"the file of pointers cannot be opened\n"),
        Fault::Usage => put_usage(room),
    }
}

// What is written, from what the program is given.
fn written(
    given: Result<Given, Fault>,
    file: &[u8],
    pointers: &[u8],
    input: &[u8],
    room: &mut [u8],
) -> usize
    ensures room_after { filled result room.new
        ≡ put_at (whole_text given file.now pointers.now input.now) 0 room.old }
    ensures fits { length (whole_text given file.now pointers.now input.now) ≤ 24576 }
{
    match given {
        Ok(given) => put_given(room, given, file, pointers, input),
        Err(fault) => put_fault(room, fault),
    }
}

// The bytes to write stand at the front of the room; how many they are is answered.
pub fn whole(
    given: Result<Given, Fault>,
    file: &[u8],
    pointers: &[u8],
    input: &[u8],
    room: &mut [u8; 24576],
) -> usize
    ensures { filled result room.new
        ≡ text_left (whole_text given file.now pointers.now input.now) room.old }
{
    written(given, file, pointers, input, room)
}

// The same of a recording judged on a fresh card.
pub fn findings(recording: &[u8], room: &mut [u8; 24576]) -> usize
    ensures { filled result room.new ≡ text_left (said recording.now) room.old }
{
    put_recording(room, recording, &mut [0; STORE_BYTES], Pointers::fresh())
}
