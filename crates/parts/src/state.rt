// The lent state, taken apart and put together again; specs/State.antt has its layout.
ghost use Rattle.std.specs.Prelude.{◌≡◌, ◌<◌, length, take, drop, get_or};
ghost use Rattle.lbp16.specs.Word.{bit};
ghost use Rattle.cue.specs.Untrusted.{any_of};
ghost use Rattle.parts.specs.State.{state_bytes, packer_at, bad_numbers, number_bytes, bytes_of_packer, bytes_of_state};
ghost use Rattle.parts.specs.Inside.{kept_at, meant, Ranged};

use crate::{layout, take};
use cue::frame;
use cue::packer::Packer;
use cue::records::MOST;
use packet::bytes;
use packet::command::LIMIT;

// The numbers are the lent state's, whatever they are, until `bad` has looked at them. `stands`: 0 while bytes are taken, 1 after the list's end, otherwise a fault's number. `collected` of `bytes` are the
// next record's.
#[derive(Clone, Copy, Debug, PartialEq, Eq)]
pub struct Kept {
    pub stands: u32,
    pub collected: usize,
    pub bytes: [u8; 10],
    pub index: usize,
    pub packer: Packer,
}

fn packer_at(s: &[u8]) -> Packer
    requires { length s.now ≡ state_bytes }
    ensures { result ≡ packer_at s.now }
{
    let size = bytes::pair_at(s, layout::PACKET) as usize;
    if size == 0 {
        return Packer::empty();
    }
    Packer {
        write: s[layout::WRITE] == 1,
        space: s[layout::SPACE],
        address: bytes::pair_at(s, layout::ADDRESS),
        count: s[layout::COUNT],
        packet: size,
        reply: bytes::pair_at(s, layout::REPLY) as usize,
        unlocked: s[layout::UNLOCKED] == 1,
        unlock: false,
        frame: 0,
        word: bytes::pair_at(s, layout::WORD) as usize,
        end: 4 + size,
        packets: 1,
    }
}

// The bytes of the next record, with those behind the collected ones.
fn bytes_at(s: &[u8]) -> [u8; 10]
    requires { length s.now ≡ state_bytes }
    ensures { result ≡ take 10 (drop 2 s.now) }
{
    [s[2], s[3], s[4], s[5], s[6], s[7], s[8], s[9], s[10], s[11]]
}

pub(crate) fn load(s: &[u8]) -> Kept
    requires { length s.now ≡ state_bytes }
    ensures { result ≡ kept_at s.now }
{
    Kept {
        stands: s[layout::STANDS] as u32,
        collected: s[layout::COLLECTED] as usize,
        bytes: bytes_at(s),
        index: bytes::pair_at(s, layout::INDEX) as usize
            + 65536 * bytes::pair_at(s, layout::INDEX_HIGH) as usize,
        packer: packer_at(s),
    }
}

// Whether some number is none that a call leaves.
pub(crate) fn bad(k: Kept) -> bool
    ensures { result ≡ any_of (bad_numbers k.stands k.collected k.index k.packer) }
{
    let p = k.packer;
    (24 < k.stands)
        | (((1 < k.stands) & (k.stands < 21))
            | ((9 < k.collected)
                | ((MOST < k.index)
                    | ((7 < p.space)
                        | ((127 < p.count)
                            | ((LIMIT < p.reply)
                                | ((frame::ROOM < p.end) | (p.packet < p.word))))))))
}

// A byte that is collected, 0 behind the last.
fn byte_of(k: Kept, i: usize) -> u8
    requires sized { length k.bytes ≡ 10 }
    requires within { i < 10 }
    ensures { result ≡ get_or (take k.collected k.bytes) i 0 }
{
    let bytes = k.bytes;
    if i < k.collected {
        return bytes[i];
    }
    0
}

fn flag(set: bool) -> u8
    ensures { result ≡ bit set }
{
    u8::from(set)
}

// What the state keeps of a packer: its numbers, all 0 where no packet is open.
fn shown(p: Packer) -> Packer
    ensures { number_bytes result ≡ bytes_of_packer p }
{
    if p.packets == 0 {
        return Packer {
            count: 0,
            packet: 0,
            ..Packer::empty()
        };
    }
    p
}

// The state's numbers; the open packet behind them stands there already.
pub(crate) fn save(k: Kept, s: &mut [u8])
    requires { (length s.old ≡ state_bytes) × Ranged k }
    ensures { s.new ≡ bytes_of_state (meant k (drop 28 s.old)) }
{
    let p = shown(k.packer);
    let index = k.index;
    let head = [
        (k.stands % 256) as u8,
        (k.collected % 256) as u8,
        byte_of(k, 0),
        byte_of(k, 1),
        byte_of(k, 2),
        byte_of(k, 3),
        byte_of(k, 4),
        byte_of(k, 5),
        byte_of(k, 6),
        byte_of(k, 7),
        byte_of(k, 8),
        byte_of(k, 9),
        (index % 256) as u8,
        (index / 256 % 256) as u8,
        (index / 256 / 256 % 256) as u8,
        (index / 256 / 256 / 256 % 256) as u8,
        flag(p.write),
        p.space,
        (p.address % 256) as u8,
        (p.address / 256 % 256) as u8,
        p.count,
        flag(p.unlocked),
        (p.packet % 256) as u8,
        (p.packet / 256 % 256) as u8,
        (p.reply % 256) as u8,
        (p.reply / 256 % 256) as u8,
        (p.word % 256) as u8,
        (p.word / 256 % 256) as u8,
    ];
    take::put_front(&head, s);
}
