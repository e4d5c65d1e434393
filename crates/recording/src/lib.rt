// A recorded show, packets and replies in turn, judged against the card.
#![tactic(auto)]

use card::check;
use lbp16::pointer::Pointers;
use lbp16::{Refusal, Rule};
use packet::command::LIMIT;

mod pair;

ghost use Rattle.std.specs.Prelude.{◌≡◌, ◌+◌, ◌*◌, ◌^◌, ◌<◌};
ghost use Rattle.recording.specs.Recording.{verdict_listed, verdict_of, part_number, left, judged_parts, judged_in, said_by, judged};

use pair::Pair;

// Packets and parts are counted from 0.
#[derive(Clone, Copy, Debug, PartialEq, Eq)]
pub enum Judgment {
    // So many packets, each with its reply, and all as it should be.
    Yes(u64),
    // Refusal 1.
    Refused(Refusal),
    // The packet is refused.
    BadPacket(u64),
    // The packet's reply has another length.
    BadLength(u64),
    // The packet's reply has another byte at the place.
    BadByte { packet: u64, place: u64 },
    // The part is cut.
    Cut(u64),
    // The part has no mark.
    Unmarked(u64),
}

// The judgment, where in the recording the last packet looked at begins, and the pointers that the packets left.
#[derive(Clone, Copy)]
pub struct Judged {
    pub judgment: Judgment,
    pub at: usize,
    pub pointers: Pointers,
}

fn part_number(packet: u64, reply: bool) -> u64
    requires { 2 * packet + 1 < 2 ^ 64 }
    ensures { result ≡ part_number packet reply }
{
    if reply { 2 * packet + 1 } else { 2 * packet }
}

// What is said where a packet and its reply are not both as they should be.
fn judgment_of(pair: Pair, packet: u64) -> Judgment
    requires { 2 * packet + 1 < 2 ^ 64 }
    ensures { verdict_listed result ≡ verdict_of pair packet }
{
    match pair {
        Pair::End => Judgment::Yes(packet),
        Pair::Good(_) => Judgment::Yes(packet),
        Pair::Refused => Judgment::BadPacket(packet),
        Pair::WrongLength => Judgment::BadLength(packet),
        Pair::WrongByte(k) => Judgment::BadByte {
            packet,
            place: k as u64,
        },
        Pair::Cut(reply) => Judgment::Cut(part_number(packet, reply)),
        Pair::Unmarked(reply) => Judgment::Unmarked(part_number(packet, reply)),
    }
}

// Each packet runs on the state that the one before left.
fn judge_parts(recording: &[u8], store: &mut [u8], p: Pointers, room: &mut [u8; LIMIT]) -> Judged
    ensures { left result store.new room.new ≡ judged_parts recording.now store.old p room.old }
{
    let mut pointers = p;
    let mut packets: u64 = 0;
    let mut at: usize = 0;
    let mut rest = recording;
    loop {
        let next = pair::pair_at(rest, store, pointers, room);
        let found = next.pair;
        pointers = next.pointers;
        let Pair::Good(k) = found else {
            return Judged {
                judgment: judgment_of(found, packets),
                at,
                pointers,
            };
        };
        packets += 1;
        at += k;
        rest = &rest[k..];
    }
}

// Judges a recording, and leaves the last reply that the card gave in the room.
pub fn judge_in(recording: &[u8], store: &mut [u8], p: Pointers, room: &mut [u8; LIMIT]) -> Judged
    ensures { left result store.new room.new ≡ judged_in recording.now store.old p room.old }
{
    if check::bad_state(store, p) {
        return Judged {
            judgment: Judgment::Refused(Rule::State.at(0)),
            at: 0,
            pointers: p,
        };
    }
    judge_parts(recording, store, p, room)
}

// Judges a recording. Store and pointers are left as the packets accepted so far leave them.
pub fn judge(recording: &[u8], store: &mut [u8], p: Pointers) -> Judged
    ensures { said_by result store.new ≡ judged recording.now store.old p }
{
    let mut room = [0u8; LIMIT];
    judge_in(recording, store, p, &mut room)
}
