// The planner's method, on what is known of the packet that is open: reads or writes of one cell in a row are one command,
// and an address that the space's pointer already has is left out. It is not trusted: the checker says what may be put out.
ghost use Rattle.std.specs.Prelude.{◌≡◌, false, ◌+◌, ◌≤◌};
ghost use Rattle.planner.specs.Inside.{Sized, Summed, Startable, Small};

use cue::records::Record;
use lbp16::pointer::{Pointer, SpacePointers};
use lbp16::space;
use packet::command::LIMIT;
use tight::UNSET_ADDRESS;

// More than the packing rule's output can have.
const MOST: usize = 2000000;

// The last command's kind, space, address and count, whether it rises, and whether its address stands in it; `still`: the
// place of an earlier word whose increment the last record takes away, 0 if none. `pointer`: where the packet left the pointer
// of the last command's space; `single`: the place of that command's word if it has one element, 0 else. `pointers` and
// `singles` are the same of the other spaces and their last commands, the rest is as in `cue::packer::Packer`.
#[derive(Clone, Copy)]
pub(crate) struct Draft {
    pub write: bool,
    pub space: u8,
    pub address: u16,
    pub count: u8,
    pub rises: bool,
    pub given: bool,
    pub still: usize,
    pub packet: usize,
    pub reply: usize,
    pub unlocked: bool,
    pub unlock: bool,
    pub frame: usize,
    pub word: usize,
    pub end: usize,
    pub pointer: u32,
    pub single: u32,
    pub pointers: SpacePointers,
    pub singles: SpacePointers,
}

// The bytes of a record's element, in the packet and in the reply, and whether it is written only with the unlock open.
#[derive(Clone, Copy)]
pub(crate) struct Cost {
    pub element: u32,
    pub carried: usize,
    pub answered: usize,
    pub locked: bool,
}

// A number, or 0.
fn only(taken: bool, n: u32) -> usize
    ensures { result ≤ n }
{
    if taken { n as usize } else { 0 }
}

pub(crate) fn cost_of(r: Record) -> Cost
    ensures { Small result }
{
    let row = space::row_of(r.space);
    let element = row.element;
    Cost {
        element,
        carried: only(r.write, element),
        answered: only(!r.write, element),
        locked: r.write & row.locked,
    }
}

fn all_at(at: u32) -> SpacePointers {
    let p = Pointer::new(at);
    SpacePointers {
        registers: p,
        eeprom: p,
        status: p,
        information: p,
    }
}

impl Draft {
    // Before the first record: as after a packet that has no room left.
    pub(crate) fn empty() -> Self
        ensures { Sized result 0 }
    {
        Draft {
            write: false,
            space: 0,
            address: 0,
            count: 127,
            rises: true,
            given: true,
            still: 0,
            packet: LIMIT,
            reply: 0,
            unlocked: false,
            unlock: false,
            frame: 0,
            word: 0,
            end: 0,
            pointer: UNSET_ADDRESS,
            single: 0,
            pointers: all_at(UNSET_ADDRESS),
            singles: all_at(0),
        }
    }
}

// Whether a number is out of range, or the packets have more than `room` bytes.
pub(crate) fn loose(p: Draft, room: usize) -> bool
    ensures { result ≡ false → Sized p room }
{
    (127 < p.count)
        | ((LIMIT < p.packet)
            | ((LIMIT < p.reply)
                | ((MOST < p.end) | ((room < p.end) | ((p.end < p.frame) | (p.end < p.word))))))
}

// Whether a packet and its reply keep the limits.
fn fits(packet: usize, reply: usize) -> bool {
    (packet <= LIMIT) & (reply <= LIMIT)
}

// Whether a record may be one more element of the last command.
fn joins(p: Draft, r: Record, c: Cost) -> bool
    requires { Sized p p.end × Small c }
{
    let fit = fits(p.packet + c.carried, p.reply + c.answered);
    let onward = p.rises & (r.address as u32 == p.pointer);
    let again = (!p.rises | (p.count == 1)) & (r.address == p.address);
    (p.count < 127) & (p.write == r.write) & (p.space == r.space) & (onward | again) & fit
}

// The address behind the last element, or its own where the command does not rise.
fn behind(address: u16, element: u32, rises: bool) -> u32
    requires { element ≤ 4 }
{
    if rises {
        address as u32 + element
    } else {
        address as u32
    }
}

fn joined(p: Draft, r: Record, c: Cost) -> Draft
    requires { Sized p p.end × Small c }
    ensures { p.end ≤ result.end }
{
    let rises = r.address != p.address;
    let mut q = p;
    q.count = p.count + 1;
    q.rises = rises;
    q.still = 0;
    q.packet = p.packet + c.carried;
    q.reply = p.reply + c.answered;
    q.unlock = false;
    q.end = p.end + c.carried;
    q.pointer = behind(r.address, c.element, rises);
    q.single = 0;
    q
}

// With the pointer of another space at hand.
fn faced(p: Draft, space: u8) -> Draft
    ensures { Summed p result }
{
    if p.space == space {
        return p;
    }
    let pointers = p.pointers;
    let singles = p.singles;
    let mut q = p;
    q.space = space;
    q.pointer = pointers.of(space).at;
    q.single = singles.of(space).at;
    q.pointers = pointers.with(p.space, Pointer::new(p.pointer));
    q.singles = singles.with(p.space, Pointer::new(p.single));
    q
}

// How a new command comes to its address: the pointer has it, or has it once the space's last command no longer rises, or it
// must be given.
fn addressed(p: Draft, r: Record, c: Cost) -> Draft
    requires { Small c }
    ensures { Summed p result }
{
    let past = p.pointer == behind(r.address, c.element, true);
    let still = only(past, p.single);
    let mut q = p;
    q.still = still;
    q.given = (p.pointer != r.address as u32) & (still == 0);
    q
}

fn head_bytes(given: bool) -> usize
    ensures { result ≤ 4 }
{
    if given { 4 } else { 2 }
}

fn unlock_bytes(unlock: bool) -> usize
    ensures { result ≤ 6 }
{
    if unlock { 6 } else { 0 }
}

// Behind this packet an empty one.
fn closed(p: Draft) -> Draft
    requires { p.end ≤ 2000000 }
    ensures { Startable result × (p.end ≤ result.end) }
{
    let mut q = p;
    q.given = true;
    q.still = 0;
    q.packet = 0;
    q.reply = 0;
    q.unlocked = false;
    q.frame = p.end;
    q.end = p.end + 4;
    q.pointer = UNSET_ADDRESS;
    q.single = 0;
    q.pointers = all_at(UNSET_ADDRESS);
    q.singles = all_at(0);
    q
}

// In this packet, or in a new one where this has no room.
fn placed(p: Draft, c: Cost) -> Draft
    requires { Startable p × (p.end ≤ 2000000) × Small c }
    ensures { Startable result × (p.end ≤ result.end) }
{
    let unlock = unlock_bytes(c.locked & !p.unlocked);
    let packet = p.packet + unlock + head_bytes(p.given) + c.carried;
    if fits(packet, p.reply + c.answered) {
        p
    } else {
        closed(p)
    }
}

// Behind the unlock where it is needed. That command leaves its space's pointer at its cell.
fn opened(p: Draft, c: Cost) -> Draft
    requires { Startable p }
    ensures { (p.end ≤ result.end) × (result.end ≤ p.end + 6) × (result.packet ≤ p.packet + 6) × (result.reply ≡ p.reply) }
{
    let mut q = p;
    q.unlock = c.locked & !p.unlocked;
    if !q.unlock {
        return q;
    }
    let pointers = p.pointers;
    let singles = p.singles;
    q.packet = p.packet + 6;
    q.unlocked = true;
    q.end = p.end + 6;
    q.pointers = pointers.with(6, Pointer::new(0x1A));
    q.singles = singles.with(6, Pointer::new(0));
    q
}

// A new command.
fn commanded(p: Draft, r: Record, c: Cost) -> Draft
    requires { (p.packet ≤ 1478) × (p.reply ≤ 1472) × (p.end ≤ 2000010) × Small c }
    ensures { p.end ≤ result.end }
{
    let bytes = head_bytes(p.given) + c.carried;
    let mut q = p;
    q.write = r.write;
    q.address = r.address;
    q.count = 1;
    q.rises = true;
    q.packet = p.packet + bytes;
    q.reply = p.reply + c.answered;
    q.word = p.end;
    q.end = p.end + bytes;
    q.pointer = behind(r.address, c.element, true);
    q.single = p.end as u32;
    q
}

// One record more. Each step has one call, so that the draft stays in registers.
pub(crate) fn turned(p: Draft, r: Record, c: Cost) -> Draft
    requires { Sized p p.end × Small c }
    ensures { p.end ≤ result.end }
{
    if joins(p, r, c) {
        return joined(p, r, c);
    }
    let q = addressed(faced(p, r.space), r, c);
    commanded(opened(placed(q, c), c), r, c)
}
