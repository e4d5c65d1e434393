// What is found at one command of a packet. Every function here gets the packet's bytes from that command on.
ghost use Rattle.std.specs.Prelude.{ℕ, cond, ◌≡◌, ◌*◌, ◌/◌, ◌%◌, ◌≤◌, length, take, drop, eqb};
ghost use Rattle.lbp16.specs.Space.{space_of, status};
ghost use Rattle.lbp16.specs.Word.{fields_of};
ghost use Rattle.lbp16.specs.Pointer.{advanced, with_pointer, pointers_of, slot_of};
ghost use Rattle.packet.specs.Step.{Kind, is_info, carried, unlocked_after, unlocked};
ghost use Rattle.packet.specs.Inside.{status_write, unlocked_by};
ghost use Rattle.packet.specs.Command.{fields_at, kind_of, row_of, header_bytes, command_bytes, address_by, address_used, stride, elements};
ghost use Rattle.packet.specs.Command.{which_of, which_listed};
ghost use Rattle.packet.specs.Reach.{reach_from, reach_at};

use crate::bytes;
use lbp16::pointer::{Pointer, Pointers};
use lbp16::space::Row;
use lbp16::word::Fields;
use lbp16::{Rule, pointer, space, word};

// The most bytes that a packet or its reply may have: 1,500 less 28 of IP and UDP headers.
pub const LIMIT: usize = 1472;

// The number of a refusal is its rule's.
#[derive(Clone, Copy, Debug, PartialEq, Eq)]
pub enum Which {
    Read,
    Write,
    Refused(Rule),
}

// The fields (all 0 where the word is cut off), the command's offset, and which of read, write or refusal it is.
#[derive(Clone, Copy, Debug, PartialEq, Eq)]
pub struct Found {
    pub fields: Fields,
    pub place: usize,
    pub which: Which,
}

// How far a command reaches: the slot of its pointer among the eight, the address used, where its first element stands in the
// store or the info area, an element's bytes, those of the whole command and of its reply, and where it leaves the pointer.
#[derive(Clone, Copy, Debug, PartialEq, Eq)]
pub struct Reach {
    pub slot: usize,
    pub used: u32,
    pub at: usize,
    pub element: usize,
    pub bytes: usize,
    pub answered: usize,
    pub next: u32,
}

// A command's fields and its reach.
#[derive(Clone, Copy, Debug, PartialEq, Eq)]
pub struct Command {
    pub fields: Fields,
    pub reach: Reach,
}

// The word at the front, 0 where it is cut off.
pub(crate) fn word_at(rest: &[u8]) -> u16
    ensures { fields_of result ≡ fields_at rest.now }
{
    if rest.len() < 2 {
        0
    } else {
        bytes::pair(rest, 0)
    }
}

// The fields of the word at the front, all 0 where it is cut off.
pub fn fields_at(rest: &[u8]) -> Fields
    ensures { result ≡ fields_at rest.now }
{
    word::fields_of(word_at(rest))
}

// The bytes of the command word and its address.
pub fn header_bytes(f: Fields) -> usize
    ensures { (result ≡ header_bytes f) × (result ≤ 4) }
{
    if f.address { 4 } else { 2 }
}

// Whether the command reads an info area.
pub fn is_info(f: Fields) -> bool
    ensures { result ≡ is_info (kind_of f) }
{
    f.info & !f.write
}

// The table's line for the command: its space's or its info area's.
pub fn row_of(f: Fields) -> Row
    ensures { result ≡ row_of f }
{
    space::area_row(is_info(f), f.space)
}

// The bytes of all elements.
fn element_bytes(f: Fields) -> usize
    ensures { (result ≡ f.count * (row_of f).element) × (result ≤ 1020) }
{
    let row = row_of(f);
    (f.count as usize) * (row.element as usize)
}

// The bytes that a write carries in its packet.
fn carried_bytes(f: Fields) -> usize
    ensures { (result ≡ f.count * carried (kind_of f) (space_of f.space)) × (result ≤ 1020) }
{
    if f.write { element_bytes(f) } else { 0 }
}

// The bytes of the whole command.
pub fn command_bytes(f: Fields) -> usize
    ensures { result ≡ command_bytes f }
{
    header_bytes(f) + carried_bytes(f)
}

// The address used: the one given, or the pointer's.
fn address_by(rest: &[u8], f: Fields, pointer: u32) -> u32
    ensures { result ≡ address_by f rest.now pointer }
{
    if f.address {
        bytes::pair_at(rest, 2) as u32
    } else {
        pointer
    }
}

pub fn address_used(p: Pointers, f: Fields, rest: &[u8]) -> u32
    ensures { result ≡ address_used p f rest.now }
{
    let pointer = p.of(is_info(f), f.space);
    address_by(rest, f, pointer.at)
}

// From one element to the next.
pub fn stride_of(f: Fields) -> u32
    ensures { result ≡ stride f }
{
    let step = row_of(f).element;
    if f.increment { step } else { 0 }
}

// Whether the unlock is open after one element, at `at` in `data`, is written to an address of space 6.
fn unlock_by_write(open: bool, address: usize, data: &[u8], at: usize) -> bool
    ensures { result ≡ unlocked_after «open» (status_write address (take 2 (drop at «data».now))) }
{
    if address == 0x1A {
        bytes::pair_at(data, at) == 0x5A02
    } else {
        open
    }
}

// Whether it is open after a write of `count` elements to space 6, from address `used` on.
fn unlock_after(open: bool, count: u8, used: u32, stride: u32, data: &[u8]) -> bool
    requires { stride ≤ 4 }
    ensures { result ≡ unlocked «open» (elements Kind.write status count used stride «data».now) }
{
    let step = stride as usize;
    let mut now_open = open;
    let mut address = used as usize;
    for i in 0..count as usize {
        now_open = unlock_by_write(now_open, address, data, i * 2);
        address += step;
    }
    now_open
}

// Whether it is open after the command.
pub(crate) fn unlocked_next(rest: &[u8], open: bool, f: Fields, used: u32) -> bool
    requires { header_bytes f ≤ length rest.now }
    ensures { result ≡ unlocked_by «open» f used rest.now }
{
    if f.write & (f.space == 6) {
        let h = header_bytes(f);
        unlock_after(open, f.count, used, stride_of(f), &rest[h..])
    } else {
        open
    }
}

// How far the elements move the pointer.
fn moved_bytes(f: Fields) -> u32
    ensures { (result ≡ f.count * stride f) × (result ≤ 1020) }
{
    (f.count as u32) * stride_of(f)
}

// The pointers after a command that uses the address `used`.
pub fn pointers_after(p: Pointers, f: Fields, used: u32) -> Pointers
    ensures { result ≡ with_pointer p (is_info (kind_of f)) (space_of f.space) (advanced used (f.count * stride f)) }
{
    let pointer = Pointer::new(used).advance(moved_bytes(f));
    p.with(is_info(f), f.space, pointer)
}

// Which of read and write a command is that no rule refuses.
pub fn read_or_write(f: Fields) -> Which
    ensures { (place : ℕ) → which_listed result place ≡ which_of 0 place (kind_of f) }
{
    if f.write { Which::Write } else { Which::Read }
}

// Whether the word is that of a plain command to space 0, with its size code.
pub(crate) fn for_registers(word: u16) -> bool
    ensures { result ≡ eqb (word / 256 % 64) 2 }
{
    word / 256 % 64 == 2
}

// The bytes where the test holds, otherwise none.
fn bytes_if(test: bool, bytes: u32) -> u32
    ensures { result ≡ cond test bytes 0 }
{
    if test { bytes } else { 0 }
}

// The reach of a command that uses the address `used`.
pub(crate) fn reach_by(f: Fields, row: Row, slot: usize, used: u32) -> Reach
    requires { (row ≡ row_of f) × (slot ≡ slot_of (is_info (kind_of f)) (space_of f.space)) }
    ensures { result ≡ reach_from f used }
{
    let elements = (f.count as u32) * row.element;
    let carried = bytes_if(f.write, elements);
    let answered = bytes_if(!f.write, elements);
    let moved = bytes_if(f.increment, elements);
    let next = Pointer::new(used).advance(moved);
    Reach {
        slot,
        used,
        at: row.place as usize + used as usize,
        element: row.element as usize,
        bytes: header_bytes(f) + carried as usize,
        answered: answered as usize,
        next: next.at,
    }
}

// The command at the front, on eight pointers that stand one after the other.
pub fn next_command(rest: &[u8], pointers: &[u32]) -> Command
    ensures { (result.fields ≡ fields_at rest.now)
        × (result.reach ≡ reach_at (pointers_of pointers.now) (fields_at rest.now) rest.now) }
{
    let word = word_at(rest);
    let fields = word::fields_of(word);
    if for_registers(word) {
        let used = address_by(rest, fields, pointer::pointer_in(pointers, 0));
        let reach = reach_by(fields, space::row_of(0), 0, used);
        return Command { fields, reach };
    }
    let slot = pointer::slot_of(is_info(fields), fields.space);
    let used = address_by(rest, fields, pointer::pointer_in(pointers, slot));
    let reach = reach_by(fields, row_of(fields), slot, used);
    Command { fields, reach }
}
