// The packing rule, on what is known of the packet that is open.
ghost use Rattle.std.specs.Prelude.{◌≡◌, false, cond, ◌+◌, ◌≤◌};
ghost use Rattle.lbp16.specs.Space.{space_of, row};
ghost use Rattle.packet.specs.Command.{limit};
ghost use Rattle.cue.specs.Inside.{Roomy};
ghost use Rattle.cue.specs.Summary.{Progress, summary, most_output, carried_by, agrees, fits, joined_with, started_with, closed_by, turned_by};

use crate::records::{MOST, Record};
use lbp16::space;
use lbp16::space::Row;
use packet::command::LIMIT;

// The bytes of a packet that has no room left.
pub(crate) const FULL: usize = LIMIT + 1;

// The most bytes of a list's output. A record adds at most 18: mark and length, an unlock, word and address, and an element.
pub(crate) const OUTPUT: usize = 18 * MOST;

// The unlock where a packet begins.
const CLOSED: bool = false;

// The last command's kind, space, address and count; the packet's bytes, its reply's, and whether the unlock is open in
// it; `unlock`: the last record put an unlock command before its own. `frame`, `word` and `end` are places in the
// output: of the packet's mark, of the last command's word, and past the packet. `packets` counts this one too.
#[derive(Clone, Copy, Debug, PartialEq, Eq)]
pub struct Packer {
    pub write: bool,
    pub space: u8,
    pub address: u16,
    pub count: u8,
    pub packet: usize,
    pub reply: usize,
    pub unlocked: bool,
    pub unlock: bool,
    pub frame: usize,
    pub word: usize,
    pub end: usize,
    pub packets: usize,
}

impl Packer {
    // Before the first record: as after a packet that has no room left.
    pub fn empty() -> Self
        ensures { result ≡ summary Progress.none false }
    {
        Packer {
            write: false,
            space: 0,
            address: 0,
            count: 127,
            packet: FULL,
            reply: 0,
            unlocked: false,
            unlock: false,
            frame: 0,
            word: 0,
            end: 0,
            packets: 0,
        }
    }
}

// A count where it applies.
fn counted(applies: bool, n: usize) -> usize
    ensures { (result ≡ cond applies n 0) × (result ≤ n) }
{
    if applies { n } else { 0 }
}

// The bytes of a record's element in its packet.
pub fn carried(r: Record) -> usize
    ensures { (result ≡ carried_by r) × (result ≤ 4) }
{
    counted(r.write, space::row_of(r.space).element as usize)
}

// (a) of the packing rule, apart from the limits.
fn agrees(p: Packer, r: Record, element: u32) -> bool
    requires { Roomy p × (element ≡ (row (space_of r.space)).element) }
    ensures { result ≡ agrees p r }
{
    let next = p.address as u32 + p.count as u32 * element;
    (p.write == r.write) & (p.space == r.space) & (r.address as u32 == next) & (p.count < 127)
}

fn fits(p: Packer) -> bool
    ensures { result ≡ fits p }
{
    (p.packet <= LIMIT) & (p.reply <= LIMIT)
}

fn joined(p: Packer, bytes: usize, answer: usize) -> Packer
    requires { Roomy p × (bytes ≤ 4) × (answer ≤ 4) }
    ensures { result ≡ joined_with p bytes answer }
{
    Packer {
        count: p.count + 1,
        packet: p.packet + bytes,
        reply: p.reply + answer,
        unlock: false,
        end: p.end + bytes,
        ..p
    }
}

// (b): a new command in the packet, where needed behind the unlock.
fn started(p: Packer, r: Record, bytes: usize, answer: usize, need: bool) -> Packer
    requires { (p.packet ≤ limit + 1) × (p.reply ≤ limit) × (p.end ≤ most_output + 4) × (bytes ≤ 4) × (answer ≤ 4) }
    ensures { result ≡ started_with p r bytes answer need }
{
    let unlock = counted(need, 6);
    Packer {
        write: r.write,
        space: r.space,
        address: r.address,
        count: 1,
        packet: p.packet + unlock + 4 + bytes,
        reply: p.reply + answer,
        unlocked: p.unlocked | need,
        unlock: need,
        word: p.end + unlock,
        end: p.end + unlock + 4 + bytes,
        ..p
    }
}

// (c): behind this packet an empty one.
fn closed(p: Packer) -> Packer
    requires { Roomy p }
    ensures { result ≡ closed_by p }
{
    Packer {
        packet: 0,
        reply: 0,
        unlocked: CLOSED,
        unlock: false,
        frame: p.end,
        end: p.end + 4,
        packets: p.packets + 1,
        ..p
    }
}

// One record more; `line` is its space's line of the table.
pub(crate) fn turned(p: Packer, r: Record, line: Row) -> Packer
    requires { Roomy p × (line ≡ row (space_of r.space)) }
    ensures { result ≡ turned_by p r }
{
    let element = line.element as usize;
    let bytes = counted(r.write, element);
    let answer = counted(!r.write, element);
    let join = joined(p, bytes, answer);
    if agrees(p, r, line.element) & fits(join) {
        return join;
    }
    let locked = r.write & line.locked;
    let start = started(p, r, bytes, answer, locked & !p.unlocked);
    if fits(start) {
        return start;
    }
    started(closed(p), r, bytes, answer, locked)
}
