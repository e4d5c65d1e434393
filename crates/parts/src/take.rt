// What one byte, and a part's bytes, do to the state. `room` holds the open packet, `out` is for what is handed out.
ghost use Rattle.std.specs.Prelude.{◌≡◌, ◌++◌, ◌≤◌, length, take, drop};
ghost use Rattle.packet.specs.Rules.{first};
ghost use Rattle.cue.specs.Records.{record_refusals, record_step, most_records};
ghost use Rattle.parts.specs.Taking.{decided_at, record_taken, byte_taken, bytes_taken, part_taken, end_taken};
ghost use Rattle.parts.specs.State.{held_packing};
ghost use Rattle.cue.specs.Output.{frame_room};
ghost use Rattle.parts.specs.Inside.{meant, Good, Sound, Ranged, Rooms, Turns, Leaves, Stops, Going, Runs, start_at};

use crate::state::Kept;
use cue::packer::Packer;
use cue::records::{MOST, READ_MARK, WRITE_MARK};
use cue::{records, untrusted};
use lbp16::Rule;
use packet::bytes;

// The state after a byte, and how many bytes were handed out.
#[derive(Clone, Copy)]
pub struct Took {
    pub kept: Kept,
    pub written: usize,
}

// The packer after a record, and how many bytes were handed out.
#[derive(Clone, Copy)]
pub struct Turn {
    pub packer: Packer,
    pub written: usize,
}

// The state after `taken` bytes.
#[derive(Clone, Copy)]
pub struct Stop {
    pub taken: usize,
    pub kept: Kept,
    pub written: usize,
}

// The packer and the index after `taken` bytes of whole records, nothing handed out.
#[derive(Clone, Copy)]
pub struct Run {
    pub taken: usize,
    pub packer: Packer,
    pub index: usize,
}

pub(crate) fn put_front(from: &[u8], out: &mut [u8])
    requires { length from.now ≤ length out.old }
    ensures { out.new ≡ from.now ++ drop (length from.now) out.old }
{
    text::put(out, 0, from);
}

// The byte at which a record shows whether it is good.
fn decided_at(index: usize, rest: &[u8]) -> usize
    ensures { (result ≡ decided_at index rest.now) × (result ≤ 10) }
{
    let mark = bytes::pair_at(rest, 0);
    let write = mark == WRITE_MARK;
    if index == MOST {
        return 1;
    }
    if (rest.len() < 2) | ((mark != READ_MARK) & !write) {
        return 2;
    }
    records::record_bytes(write)
}

// The packer after a record that no rule refuses; if the record opens the next packet, the one before is handed out.
fn turned(p: Packer, rest: &[u8], room: &[u8], out: &mut [u8]) -> Turn
    requires { Sound p × Rooms room.now out.old × Good rest.now }
    ensures { Turns (record { packer = p; room = room.now }) (record_step rest.now) result.packer result.written
        out.new out.old }
{
    let r = records::record_at(rest);
    let q = untrusted::turned(p, r);
    if q.packets == 2 {
        let end = p.end;
        put_front(&room[..end], out);
        return Turn {
            packer: untrusted::turned(Packer::empty(), r),
            written: end,
        };
    }
    Turn {
        packer: q,
        written: 0,
    }
}

// A record that no rule refuses.
fn record_taken(k: Kept, rest: &[u8], room: &mut [u8], out: &mut [u8]) -> Took
    requires { Ranged k × Rooms room.old out.old × (first (record_refusals k.index rest.now) ≡ 0) }
    ensures { Leaves (record_taken held_packing 0 (meant k room.old) (record_step rest.now)) result.kept result.written
        room.new out.new out.old }
{
    let t = turned(k.packer, rest, room, out);
    untrusted::put(t.packer, rest, room);
    Took {
        kept: Kept {
            stands: 0,
            collected: 0,
            index: k.index + 1,
            packer: t.packer,
            ..k
        },
        written: t.written,
    }
}

// Nothing more is taken.
fn stopped(k: Kept, stands: u32) -> Kept
    ensures { result ≡ record { stands = stands; collected = 0; bytes = k.bytes; index = k.index; packer = k.packer } }
{
    Kept {
        stands,
        collected: 0,
        ..k
    }
}

// One byte, where no fault stands and the list has not ended.
fn byte_taken(k: Kept, b: u8, room: &mut [u8], out: &mut [u8]) -> Took
    requires { Ranged k × Rooms room.old out.old × (k.stands ≡ 0) }
    ensures { Leaves (byte_taken held_packing (meant k room.old) b) result.kept result.written
        room.new out.new out.old }
{
    let mut bytes = k.bytes;
    let at = k.collected;
    bytes[at] = b;
    let shown = at + 1;
    let index = k.index;
    if shown < decided_at(index, &bytes[..shown]) {
        return Took {
            kept: Kept {
                stands: 0,
                collected: shown,
                bytes,
                ..k
            },
            written: 0,
        };
    }
    if let Err(rule) = records::record_refusal(&bytes[..shown], index) {
        return Took {
            kept: stopped(k, rule.number()),
            written: 0,
        };
    }
    record_taken(k, &bytes[..shown], room, out)
}

// Takes the record at the front of `rest`, if it is whole and good and joins the open packet.
fn record_joined(p: Packer, index: usize, rest: &[u8], room: &mut [u8]) -> Run
    requires { Sound p × (index ≤ most_records) × (length room.old ≡ frame_room) }
    ensures { Runs p index rest.now room.old result room.new }
{
    if records::record_refusal(rest, index).is_err() {
        return Run {
            taken: 0,
            packer: p,
            index,
        };
    }
    let r = records::record_at(rest);
    let q = untrusted::turned(p, r);
    if q.packets == 2 {
        return Run {
            taken: 0,
            packer: p,
            index,
        };
    }
    untrusted::put(q, rest, room);
    Run {
        taken: records::record_bytes(r.write),
        packer: q,
        index: index + 1,
    }
}

// Such records, as many as follow each other.
fn records_joined(p: Packer, first: usize, part: &[u8], room: &mut [u8]) -> Run
    requires { Sound p × (first ≤ most_records) × (length room.old ≡ frame_room) }
    ensures { Runs p first part.now room.old result room.new }
{
    let mut packer = p;
    let mut index = first;
    let mut at: usize = 0;
    // How many bytes a record takes is known once it is taken.
    while at < part.len() {
        let j = record_joined(packer, index, &part[at..], room);
        let next = j.packer;
        packer = next;
        index = j.index;
        at += j.taken;
        if j.taken == 0 {
            return Run {
                taken: at,
                packer,
                index,
            };
        }
    }
    Run {
        taken: at,
        packer,
        index,
    }
}

// A byte, and the whole records behind it if none is left waiting.
fn stretch_taken(k: Kept, rest: &[u8], room: &mut [u8], out: &mut [u8]) -> Stop
    requires { Ranged k × Rooms room.old out.old × (k.stands ≡ 0) × (1 ≤ length rest.now) }
    ensures { Going (start_at k room.old) rest.now out.old result.kept result.written
        result.taken room.new out.new × (1 ≤ result.taken) }
{
    let t = byte_taken(k, rest[0], room, out);
    let kept = t.kept;
    if (rest.len() == 1) | ((kept.stands != 0) | ((t.written != 0) | (kept.collected != 0))) {
        return Stop {
            taken: 1,
            kept,
            written: t.written,
        };
    }
    let run = records_joined(kept.packer, kept.index, &rest[1..], room);
    Stop {
        taken: 1 + run.taken,
        kept: Kept {
            stands: 0,
            collected: 0,
            index: run.index,
            packer: run.packer,
            ..kept
        },
        written: 0,
    }
}

// A part's bytes, until a packet is handed out or a fault shows.
fn bytes_taken(k: Kept, part: &[u8], room: &mut [u8], out: &mut [u8]) -> Stop
    requires { Ranged k × Rooms room.old out.old }
    ensures { Stops (bytes_taken held_packing (start_at k room.old) part.now) result
        room.new out.new out.old }
{
    let mut kept = k;
    let mut written: usize = 0;
    let mut at: usize = 0;
    // A turn takes as many bytes as go before a packet is handed out or a fault shows.
    while (at < part.len()) & ((kept.stands == 0) & (written == 0)) {
        let t = stretch_taken(kept, &part[at..], room, out);
        let next = t.kept;
        kept = next;
        written = t.written;
        at += t.taken;
    }
    Stop {
        taken: at,
        kept,
        written,
    }
}

// The list's end: the open packet is handed out, or a record is cut.
fn end_taken(k: Kept, room: &[u8], out: &mut [u8]) -> Took
    requires { Ranged k × Rooms room.now out.old }
    ensures { Leaves (end_taken held_packing (meant k room.now) (take k.collected k.bytes)) result.kept result.written
        room.now out.new out.old }
{
    if k.collected != 0 {
        return Took {
            kept: stopped(k, Rule::Record.number()),
            written: 0,
        };
    }
    let p = k.packer;
    let end = p.end;
    put_front(&room[..end], out);
    Took {
        kept: stopped(k, 1),
        written: end,
    }
}

// A part's bytes, and the list's end if it is the part's and the call has not stopped before.
pub(crate) fn part_taken(k: Kept, part: &[u8], last: bool, room: &mut [u8], out: &mut [u8]) -> Stop
    requires { Ranged k × Rooms room.old out.old }
    ensures { Stops (part_taken held_packing (meant k room.old) part.now last) result
        room.new out.new out.old }
{
    let s = bytes_taken(k, part, room, out);
    let kept = s.kept;
    if last & ((kept.stands == 0) & (s.written == 0)) {
        let e = end_taken(kept, room, out);
        let done = e.kept;
        return Stop {
            taken: s.taken,
            kept: done,
            written: e.written,
        };
    }
    s
}
