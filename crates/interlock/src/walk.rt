// The walks for writes of protected bytes, over a packet's commands and over a list's records. They ask no rule. A command is read by
// functions of its own, so that `next_command` keeps its one call, in the run's loop.
ghost use Rattle.std.specs.Prelude.{◌≡◌, cond, List, ℕ, ◌*◌, ◌≤◌, ◌<◌, length, unwrap_or, IfSome};
ghost use Rattle.lbp16.specs.Space.{space_of};
ghost use Rattle.lbp16.specs.Pointer.{with_pointer, advanced, pointers_of};
ghost use Rattle.packet.specs.Step.{Step, is_info};
ghost use Rattle.packet.specs.Command.{kind_of, row_of, command_bytes, address_used, stride, steps_at};
ghost use Rattle.packet.specs.Judge.{Carried, accepted, judge};
ghost use Rattle.packet.specs.Verdict.{verdict_listed};
ghost use Rattle.cue.specs.Records.{records, records_of, brief};
ghost use Rattle.interlock.specs.Guard.{writes_protected, protected};
ghost use Rattle.interlock.specs.Guarded.{protected_place, records_held};

use crate::ranges;
use cue::records::{Record, Records};
use lbp16::pointer::{Pointer, Pointers};
use lbp16::word::Fields;
use lbp16::{Rule, space};
use packet::judge::Verdict;
use packet::{bytes, command};

// The bytes from the first element to the end of the furthest: with increment elements stand one behind the other.
pub(crate) fn span(increment: bool, count: u8, element: u32) -> u64
    requires { element ≤ 4 }
    ensures { (result ≡ cond increment (count * element) element) × (result ≤ 1020) }
{
    let one = element as u64;
    if increment { count as u64 * one } else { one }
}

// Whether a command that uses the address `used` writes a protected byte: one look at each range for all its elements.
fn writes_protected(guard: &[u32], f: Fields, used: u32) -> bool
    ensures { (p : Pointers) (rest : List ℕ) → used ≡ address_used p f rest
        → result ≡ protected guard.now (steps_at p f rest) }
{
    if !f.write | (f.count == 0) {
        return false;
    }
    let row = command::row_of(f);
    let place = row.place as u64 + used as u64;
    ranges::touches(guard, place, span(f.increment, f.count, row.element))
}

// The address used: the one given, or the pointer's, which is looked up only then.
fn address(p: Pointers, f: Fields, rest: &[u8]) -> u32
    ensures { result ≡ address_used p f rest.now }
{
    if f.address {
        return bytes::pair_at(rest, 2) as u32;
    }
    let pointer = p.of(command::is_info(f), f.space);
    pointer.at
}

// The bytes of a command's elements.
fn element_bytes(f: Fields) -> u32
    ensures { (result ≡ f.count * (row_of f).element) × (result ≤ 1020) }
{
    let row = command::row_of(f);
    f.count as u32 * row.element
}

// The bytes where the test holds, otherwise none.
fn bytes_if(test: bool, bytes: u32) -> u32
    ensures { result ≡ cond test bytes 0 }
{
    if test { bytes } else { 0 }
}

// The pointers after a command whose elements have so many bytes.
fn moved(p: Pointers, f: Fields, used: u32, bytes: u32) -> Pointers
    requires { bytes ≡ f.count * (row_of f).element }
    ensures { result ≡ with_pointer p (is_info (kind_of f)) (space_of f.space) (advanced used (f.count * stride f)) }
{
    let pointer = Pointer::new(used).advance(bytes_if(f.increment, bytes));
    p.with(command::is_info(f), f.space, pointer)
}

// The bytes of such a command.
fn whole(f: Fields, bytes: u32) -> usize
    requires { (bytes ≡ f.count * (row_of f).element) × (bytes ≤ 1020) }
    ensures { result ≡ command_bytes f }
{
    let header = command::header_bytes(f);
    if f.write {
        return header + bytes as usize;
    }
    header
}

// The offset of the first command of an accepted packet that writes a protected byte. Of any other packet it is some offset.
pub(crate) fn protected_place(packet: &[u8], pointers: &[u32], guard: &[u32]) -> Option<usize>
    ensures place { length pointers.now ≡ 8 → (end : Carried)
        → judge (pointers_of pointers.now) packet.now ≡ accepted end
        → unwrap_or result (length packet.now) ≡ protected_place guard.now (pointers_of pointers.now) packet.now }
    ensures inside { IfSome result (λ place. place < length packet.now) }
{
    if pointers.len() != 8 {
        return None;
    }
    let mut rest = packet;
    let mut p = Pointers::from_lent(pointers);
    // The address that a command uses depends on the pointers that the one before left.
    while 0 < rest.len() {
        let f = command::fields_at(rest);
        let used = address(p, f, rest);
        if writes_protected(guard, f, used) {
            return Some(packet.len() - rest.len());
        }
        let bytes = element_bytes(f);
        p = moved(p, f, used, bytes);
        let k = whole(f, bytes);
        if rest.len() < k {
            return None;
        }
        rest = &rest[k..];
    }
    None
}

// Whether a record writes a protected byte.
fn record_protected(guard: &[u32], r: Record) -> bool
    ensures { (x : Step) → r ≡ brief x → result ≡ writes_protected guard.now x }
{
    if !r.write {
        return false;
    }
    let row = space::row_of(r.space);
    let place = row.place as u64 + r.address as u64;
    ranges::touches(guard, place, row.element as u64)
}

// The first record of a good list that writes a protected byte, as 71, or the number of records.
pub(crate) fn records_held(list: &[u8], guard: &[u32]) -> Verdict
    requires { (xs : List Step) × (records_of list.now ≡ records xs) }
    ensures { (xs : List Step) → records_of list.now ≡ records xs
        → verdict_listed result ≡ records_held guard.now 0 xs }
{
    let mut index: u64 = 0;
    for r in Records(list) {
        if record_protected(guard, r) {
            return Err(Rule::Protected.at(index));
        }
        index += 1;
    }
    Ok(index)
}
