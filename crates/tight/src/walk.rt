// A proposal's packets gone through beside the list's records.
ghost use Rattle.std.specs.Prelude.{◌≡◌, false, List, ◌+◌, ◌*◌, ◌≤◌, length};
ghost use Rattle.lbp16.specs.Space.{space_of, is_absent};
ghost use Rattle.packet.specs.Step.{Step, is_info, carried};
ghost use Rattle.packet.specs.Command.{pick_kind, kind_of, stride, elements, steps_at};
ghost use Rattle.packet.specs.Judge.{Carried, accepted, judge};
ghost use Rattle.card.specs.Inside.{LetPass};
ghost use Rattle.cue.specs.Records.{records, records_of, record_bytes};
ghost use Rattle.cue.specs.Output.{apart, front_of};
ghost use Rattle.tight.specs.Tight.{unlocks, done_by, frames_checked};
ghost use Rattle.tight.specs.Inside.{unset, element_step, step_takes, steps_take, doing_takes, packet_takes, frame_takes, count_listed};

use crate::UNSET_ADDRESS;
use cue::frame::Frame;
use cue::{frame, records};
use lbp16::pointer::{Pointer, Pointers, SpacePointers};
use lbp16::space;
use lbp16::word::Fields;
use packet::command::LIMIT;
use packet::{bytes, command, judge};
use text::find;

fn unset() -> Pointers
    ensures { result ≡ unset }
{
    let p = Pointer::new(UNSET_ADDRESS);
    let spaces = SpacePointers {
        registers: p,
        eeprom: p,
        status: p,
        information: p,
    };
    Pointers {
        plain: spaces,
        info: spaces,
    }
}

// Whether an element writes 0x5A02 to the unlock cell.
fn unlocks(write: bool, space: u8, address: u32, bytes: &[u8]) -> bool
    ensures { result ≡ unlocks (element_step write space address bytes.now) }
{
    write & (space == 6) & (address == 0x1A) & (bytes::pair_at(bytes, 0) == 0x5A02)
}

// The bytes of an element in its command; a record has room for them.
fn carried_bytes(write: bool, space: u8) -> usize
    ensures { (result ≡ carried (pick_kind write) (space_of space)) × (result + 6 ≤ record_bytes (pick_kind write)) }
{
    if write {
        space::row_of(space).element as usize
    } else {
        0
    }
}

// One element of a command at the front of the list's bytes; `bytes` are the command's from that element on.
fn element_takes(list: &[u8], write: bool, space: u8, address: u32, bytes: &[u8]) -> Option<usize>
    requires { (is_absent (space_of space) ≡ false) × (carried (pick_kind write) (space_of space) ≤ length bytes.now) }
    ensures { result ≡ step_takes (element_step write space address bytes.now) list.now }
{
    if unlocks(write, space, address, bytes) {
        return Some(0);
    }
    let r = records::record_at(list);
    let n = records::record_bytes(r.write);
    if list.len() < n {
        return None;
    }
    if (r.write != write) | (r.space != space) | (r.address as u32 != address) {
        return None;
    }
    let m = carried_bytes(write, space);
    let end = 6 + m;
    if find::same(&bytes[..m], &list[6..end]) {
        Some(n)
    } else {
        None
    }
}

// The elements of a plain command, from address `used` on; `data` are the bytes behind its header.
fn elements_take(list: &[u8], f: Fields, used: u32, data: &[u8]) -> Option<usize>
    requires { (is_absent (space_of f.space) ≡ false) × (is_info (kind_of f) ≡ false) × (used ≤ 65536)
        × (f.count * carried (kind_of f) (space_of f.space) ≤ length «data».now) }
    ensures { result ≡ steps_take (elements (kind_of f) (space_of f.space) f.count used (stride f) «data».now) list.now }
{
    let step = command::stride_of(f);
    let element = carried_bytes(f.write, f.space);
    let mut taken: usize = 0;
    let mut address = used;
    let mut at: usize = 0;
    for _ in 0..f.count {
        let n = element_takes(&list[taken..], f.write, f.space, address, &data[at..])?;
        taken += n;
        address += step;
        at += element;
    }
    Some(taken)
}

// A command that no rule refuses, at the front of `rest`. No record is an info read.
fn command_takes(list: &[u8], rest: &[u8], p: Pointers, f: Fields) -> Option<usize>
    requires { LetPass p f rest.now }
    ensures { result ≡ steps_take (steps_at p f rest.now) list.now }
{
    if command::is_info(f) {
        return None;
    }
    let used = command::address_used(p, f, rest);
    let h = command::header_bytes(f);
    elements_take(list, f, used, &rest[h..])
}

// The commands of a packet that the check accepted. No rule is asked a second time.
fn commands_take(list: &[u8], packet: &[u8], p: Pointers) -> Option<usize>
    requires { (c : Carried) × (judge p packet.now ≡ accepted c) }
    ensures { result ≡ doing_takes (done_by (judge p packet.now)) list.now }
{
    let mut rest = packet;
    let mut pointers = p;
    let mut taken: usize = 0;
    // What a command takes depends on the pointers that the one before left.
    while 0 < rest.len() {
        let f = command::fields_at(rest);
        let n = command_takes(&list[taken..], rest, pointers, f)?;
        taken += n;
        let used = command::address_used(pointers, f, rest);
        pointers = command::pointers_after(pointers, f, used);
        let k = command::command_bytes(f);
        rest = &rest[k..];
    }
    Some(taken)
}

// A packet: rejected if it is too long, if a command is refused, or if a command takes no record.
fn packet_takes(list: &[u8], packet: &[u8]) -> Option<usize>
    ensures { result ≡ packet_takes packet.now list.now }
{
    if LIMIT < packet.len() {
        return None;
    }
    let p = unset();
    match judge::judge(packet, p) {
        Ok(_) => commands_take(list, packet, p),
        Err(_) => None,
    }
}

// The bytes of the whole frame at the front of a proposal's.
fn frame_bytes(rest: &[u8]) -> Option<usize>
    ensures { result ≡ frame_takes (front_of rest.now) }
{
    let frame = frame::frame_at(rest);
    match frame {
        Frame::End => None,
        Frame::Cut => None,
        Frame::Unmarked => None,
        Frame::Whole(n) => Some(n),
    }
}

// The packets of a proposal beside the records of an accepted list: all of each must be taken.
pub(crate) fn packets_checked(list: &[u8], proposal: &[u8]) -> Option<u64>
    ensures { (xs : List Step) → records_of list.now ≡ records xs → count_listed result ≡ frames_checked (apart proposal.now) xs }
{
    let mut rest = proposal;
    let mut taken: usize = 0;
    let mut packets: u64 = 0;
    // Where a frame ends is known only once it is read, and what it takes begins where the one before ended.
    while rest.len() != 0 {
        let n = frame_bytes(rest)?;
        let end = 4 + n;
        let k = packet_takes(&list[taken..], &rest[4..end])?;
        taken += k;
        packets += 1;
        rest = &rest[end..];
    }
    if taken != list.len() {
        return None;
    }
    Some(packets)
}
