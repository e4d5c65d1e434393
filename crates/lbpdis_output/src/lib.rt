// What the program `lbpdis` writes: packets behind "LB", each in words.
#![tactic(auto)]

ghost use Rattle.std.specs.Prelude.{◌≡◌, ◌+◌, ◌≤◌, length, None, IfSome};
ghost use Rattle.text.specs.Room.{filled, put_at};
ghost use Rattle.cue.specs.Output.{Front};
ghost use Rattle.card.specs.Run.{checked_packet};
ghost use Rattle.reason.specs.Reason.{pointers_left};
ghost use Rattle.packet_text.specs.Packet.{packet_text, most_text};
ghost use Rattle.lbpdis_output.specs.Said.{packet_line, fault_line, cut_line, unmarked_line, end_line, part_text, part_left, part_said};
ghost use Rattle.lbpdis_output.specs.Inside.{part_put};

use cue::frame;
use cue::frame::Frame;
use lbp16::pointer::Pointers;
use text::{line, pick};
use why_output::packets::in_frame;

// Room for a packet's line and its text.
pub const ROOM: usize = 69760;

// So many bytes are to be written; as many of the input are passed, if more is to be said; and the pointers after the packet.
#[derive(Clone, Copy)]
pub struct Part {
    pub bytes: usize,
    pub passed: Option<usize>,
    pub pointers: Pointers,
}

fn put_line(room: &mut [u8], i: u64, n: usize) -> usize
    ensures { filled result room.new ≡ put_at (packet_line i n) 0 room.old }
{
    let at = line::numbered(room, 0, b"packet ", i);
    let at = line::numbered(room, at, b", ", n as u64);
    text::put(room, at, pick(n == 1, b" byte\n", b" bytes\n"))
}

fn put_fault(room: &mut [u8], i: u64, words: &[u8]) -> usize
    ensures { filled result room.new ≡ put_at (fault_line i words.now) 0 room.old }
{
    let at = line::numbered(room, 0, b"part ", i);
    text::put(room, at, words)
}

fn put_cut(room: &mut [u8], i: u64) -> usize
    ensures { filled result room.new ≡ put_at (cut_line i) 0 room.old }
{
    put_fault(room, i, b" is cut\n")
}

fn put_unmarked(room: &mut [u8], i: u64) -> usize
    ensures { filled result room.new ≡ put_at (unmarked_line i) 0 room.old }
{
    if i == 0 {
        return text::put(
            room,
            0,
            b"the input does not begin with \"LB\": why takes a packet alone, and hexadecimal text\n",
        );
    }
    put_fault(room, i, b" has no mark\n")
}

fn put_end(room: &mut [u8], i: u64) -> usize
    ensures { filled result room.new ≡ put_at (end_line i) 0 room.old }
{
    text::put(room, 0, pick(i == 0, b"no packets\n", b""))
}

// The place behind a packet's text, and the pointers that the packet leaves.
#[derive(Clone, Copy)]
struct Laid {
    next: usize,
    pointers: Pointers,
}

fn put_text(room: &mut [u8], at: usize, packet: &[u8], p: Pointers) -> Laid
    ensures { (filled result.next room.new ≡ put_at (packet_text p packet.now) at room.old)
        × (result.pointers ≡ pointers_left (checked_packet p packet.now) p) × (length (packet_text p packet.now) ≤ most_text) }
{
    let mut words = [0u8; packet_text::MOST];
    let shown = packet_text::put_packet(&mut words, packet, p).unwrap();
    let n = shown.bytes;
    let pointers = shown.pointers;
    Laid {
        next: text::put(room, at, &words[..n]),
        pointers,
    }
}

// The packet of n bytes at the front.
fn put_framed(room: &mut [u8], i: u64, rest: &[u8], n: usize, p: Pointers) -> Part
    requires { 4 + n ≤ length rest.now }
    ensures { (part_left (filled result.bytes room.new) result.passed result.pointers ≡ part_put (Front.frame n) i rest.now p room.old)
        × (length (part_text (Front.frame n) i rest.now p) ≤ 69760) }
{
    let at = put_line(room, i, n);
    let laid = put_text(room, at, in_frame(rest, n), p);
    let pointers = laid.pointers;
    Part {
        bytes: laid.next,
        passed: Some(4 + n),
        pointers,
    }
}

fn ended(bytes: usize, p: Pointers) -> Part
    ensures { (result.bytes ≡ bytes) × (result.passed ≡ None) × (result.pointers ≡ p) }
{
    Part {
        bytes,
        passed: None,
        pointers: p,
    }
}

// What stands at the front of the input is packet or part i, from these pointers.
pub fn put_part(room: &mut [u8; ROOM], i: u64, rest: &[u8], p: Pointers) -> Part
    ensures said { part_left (filled result.bytes room.new) result.passed result.pointers
        ≡ part_said i rest.now p room.old }
    ensures within { (IfSome result.passed (λ n. n ≤ length rest.now)) × (result.bytes ≤ 69760) }
{
    let frame = frame::frame_at(rest);
    match frame {
        Frame::End => ended(put_end(room, i), p),
        Frame::Cut => ended(put_cut(room, i), p),
        Frame::Unmarked => ended(put_unmarked(room, i), p),
        Frame::Whole(n) => put_framed(room, i, rest, n, p),
    }
}
