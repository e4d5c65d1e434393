// One packet on a card store.
ghost use Rattle.std.specs.Prelude.{◌≡◌, true, false, cond, List, ◌++◌, ℕ, ◌+◌, ◌*◌, ◌^◌, ◌≤◌, ◌<◌, eqb, length, drop};
ghost use Rattle.lbp16.specs.Space.{space_of, store_bytes};
ghost use Rattle.packet.specs.Step.{answered, store_after, values_read};
ghost use Rattle.packet.specs.Command.{limit, kind_of, steps_at};
ghost use Rattle.packet.specs.Judge.{judge};
ghost use Rattle.packet.specs.Verdict.{verdict_listed};
ghost use Rattle.packet.specs.Counts.{elements_moved};
ghost use Rattle.packet.specs.Reach.{reach_at};
ghost use Rattle.lbp16.specs.Pointer.{pointers_of};
ghost use Rattle.card.specs.Run.{cleared, counted, run_packet, ran, run_lent, ran_lent, most_elements};
ghost use Rattle.card.specs.Inside.{IsAccepted, IsWidth, Ready, Performed, Within, moved, laid, span_at};

use crate::{block, check, element};
use lbp16::pointer::Pointers;
use lbp16::word::Fields;
use lbp16::{Rule, pointer};
use packet::command::{Reach, Which};
use packet::judge::Verdict;
use packet::{command, info};

// A command's elements in the store or in the info area: the first one's place, from one to the next, their bytes, and
// how many.
#[derive(Clone, Copy)]
struct Span {
    at: usize,
    step: usize,
    element: usize,
    count: u32,
}

// From one element to the next.
fn step_of(increment: bool, element: usize) -> usize
    ensures { result ≡ cond increment element 0 }
{
    if increment { element } else { 0 }
}

fn span_of(f: Fields, r: Reach) -> Span
    ensures { (p : Pointers) (rest : List ℕ) → r ≡ reach_at p f rest → result ≡ span_at p f rest }
{
    let element = r.element;
    Span {
        at: r.at,
        step: step_of(f.increment, element),
        element,
        count: f.count as u32,
    }
}

// Elements of a read, from where they stand in `src` to the front of the reply's unused tail.
fn read_span(s: Span, src: &[u8], tail: &mut [u8])
    requires { (s.step ≤ 4) × IsWidth s.element × Within s.count s.at s.step s.element (length src.now)
        × Within s.count 0 s.element s.element (length tail.old) }
    ensures { tail.new ≡ moved s.count s.element src.now s.at s.step tail.old 0 s.element }
{
    if s.count == 1 {
        element::move_sized(s.element, src, s.at, tail, 0);
    } else {
        block::move_sized(s.element, src, s.at, s.step, tail, 0, s.element, s.count);
    }
}

// The elements of a read, from the store or from the info area, which shows the pointer as it stands before the command.
fn read_command(rest: &[u8], pointers: &[u32], f: Fields, r: Reach, store: &[u8], tail: &mut [u8])
    requires { Ready pointers.now f rest.now r × (f.write ≡ false) × (length store.now ≡ store_bytes)
        × (f.count * answered (kind_of f) (space_of f.space) ≤ length tail.old) }
    ensures { tail.new
        ≡ values_read (steps_at (pointers_of pointers.now) f rest.now) store.now
        ++ drop (length (values_read (steps_at (pointers_of pointers.now) f rest.now) store.now)) tail.old }
{
    let s = span_of(f, r);
    if command::is_info(f) {
        let slot = pointer::slot_of(false, f.space);
        let area = info::area_bytes(f.space, pointer::pointer_in(pointers, slot));
        read_span(s, &area, tail);
    } else {
        read_span(s, store, tail);
    }
}

// The elements of a write, from the packet to the store.
fn write_command(rest: &[u8], pointers: &[u32], f: Fields, r: Reach, store: &mut [u8])
    requires { Ready pointers.now f rest.now r × (f.write ≡ true) × (length store.old ≡ store_bytes) }
    ensures { store.new ≡ store_after (steps_at (pointers_of pointers.now) f rest.now) store.old }
{
    let s = span_of(f, r);
    let header = command::header_bytes(f);
    if s.count == 1 {
        element::move_sized(s.element, rest, header, store, s.at);
    } else {
        block::move_sized(
            s.element, rest, header, s.element, store, s.at, s.step, s.count,
        );
    }
}

// Does a command that the check let pass: a read fills the front of the reply's unused tail, a write goes to the store. It is never
// a refusal.
fn do_command(
    rest: &[u8],
    pointers: &[u32],
    f: Fields,
    r: Reach,
    store: &mut [u8],
    reply: &mut [u8],
    filled: usize,
)
    requires { Ready pointers.now f rest.now r × (length store.old ≡ store_bytes)
        × (filled + f.count * answered (kind_of f) (space_of f.space) ≤ length reply.old) }
    ensures store_after { store.new ≡ store_after (steps_at (pointers_of pointers.now) f rest.now) store.old }
    ensures reply_after { reply.new
        ≡ laid filled (values_read (steps_at (pointers_of pointers.now) f rest.now) store.old) reply.old }
{
    let which = command::read_or_write(f);
    match which {
        Which::Read => {
            read_command(rest, pointers, f, r, store, &mut reply[filled..]);
        }
        Which::Write => {
            write_command(rest, pointers, f, r, store);
        }
        Which::Refused(_) => {}
    }
}

// The elements moved so far, and those of one command more.
fn summed(before: u64, count: u8) -> u64
    requires { before + count < 2 ^ 64 }
    ensures { result ≡ before + count }
{
    before + count as u64
}

// Does all commands of a packet that the check accepted, and gives how many elements were moved. No rule is asked a second time.
fn perform(packet: &[u8], store: &mut [u8], pointers: &mut [u32], reply: &mut [u8]) -> u64
    requires { IsAccepted (judge (pointers_of pointers.old) packet.now) × (length store.old ≡ store_bytes)
        × (length pointers.old ≡ 8) × (length reply.old ≡ limit) }
    ensures { Performed packet.now store.old reply.old pointers.old
        store.new reply.new pointers.new result }
{
    let mut filled: usize = 0;
    let mut elements: u64 = 0;
    let mut rest = packet;
    // What a command means depends on the pointers that the one before it left.
    while 0 < rest.len() {
        let c = command::next_command(rest, pointers);
        let f = c.fields;
        let r = c.reach;
        do_command(rest, pointers, f, r, store, reply, filled);
        let slot = r.slot;
        pointers[slot] = r.next;
        filled += r.answered;
        elements = summed(elements, f.count);
        let k = r.bytes;
        rest = &rest[k..];
    }
    elements
}

// The first bytes in the store of the unlock cell and of the packet count, 0x1A and 0x0A of space 6.
const UNLOCK_CELL: usize = 65664 + 0x1A;

pub const COUNT_CELL: usize = 65664 + 0x0A;

// Sets the unlock cell to 0.
fn clear_unlock(store: &mut [u8])
    requires { length store.old ≡ store_bytes }
    ensures { store.new ≡ cleared store.old }
{
    element::store2(store, UNLOCK_CELL, 0);
}

// Counts the packet: the cell at 0x0A of space 6 goes up by one, from 65,535 to 0.
fn count_packet(store: &mut [u8])
    requires { length store.old ≡ store_bytes }
    ensures { store.new ≡ counted store.old }
{
    let next = element::fetch2(store, COUNT_CELL) as u32 + 1;
    element::store2(store, COUNT_CELL, (next % 65536) as u16);
}

// The check's answer, and how many elements were moved.
#[derive(Clone, Copy)]
pub struct RanLent {
    pub answer: Verdict,
    pub elements: u64,
}

// The answer where nothing is done.
fn not_run(answer: Verdict) -> RanLent
    ensures { (result.answer ≡ answer) × (result.elements ≡ 0) }
{
    RanLent {
        answer,
        elements: 0,
    }
}

// Runs one packet: the whole of it is checked, on the state that the run finds, before anything is done. The pointers are lent as a
// list, as for a check.
pub fn run_lent(packet: &[u8], store: &mut [u8], lent: &mut [u32], reply: &mut [u8]) -> RanLent
    ensures ran { ran_lent result store.new lent.new reply.new
        ≡ run_lent packet.now store.old lent.old reply.old }
    ensures summed { result.elements ≡ elements_moved (verdict_listed result.answer) packet.now }
    ensures bounded { result.elements ≤ most_elements }
{
    if reply.len() != command::LIMIT {
        return not_run(Err(Rule::State.at(0)));
    }
    let answer = check::check_lent(packet, store, lent);
    let Ok(length) = answer else {
        return not_run(answer);
    };
    let elements = perform(packet, store, lent, reply);
    clear_unlock(store);
    count_packet(store);
    RanLent {
        answer: Ok(length),
        elements,
    }
}

// The check's answer, how many elements were moved, and the pointers afterwards.
#[derive(Clone, Copy)]
pub struct Ran {
    pub answer: Verdict,
    pub elements: u64,
    pub pointers: Pointers,
}

// The same, on pointers by value: they come back beside the answer.
pub fn run(packet: &[u8], store: &mut [u8], p: Pointers, reply: &mut [u8]) -> Ran
    ensures ran { ran result store.new reply.new ≡ run_packet packet.now store.old p reply.old }
    ensures summed { result.elements ≡ elements_moved (verdict_listed result.answer) packet.now }
    ensures bounded { result.elements ≤ most_elements }
{
    let mut lent = p.listed();
    let done = run_lent(packet, store, &mut lent, reply);
    let answer = done.answer;
    let pointers = Pointers::from_lent(&lent);
    Ran {
        answer,
        elements: done.elements,
        pointers,
    }
}
