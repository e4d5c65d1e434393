// What is wrong with a table that is refused, in words. The rule is the library's; here the first entry that breaks it is looked for.
// Each function answers the place behind what it put; what the room does not hold is cut off.
ghost use Rattle.std.specs.Prelude.{◌≤◌};

use text::{find, line, number};

// A card's memory, and the address of its table.
#[derive(Clone, Copy)]
pub(crate) struct Card<'a> {
    pub(crate) memory: &'a [u8],
    pub(crate) table: u16,
}

// Why an entry is not sound: that the table ends there too.
#[derive(Clone, Copy, Debug, PartialEq, Eq)]
enum Fault {
    End,
    Outside,
    Cut,
    Mark(u8),
    Type(u8),
    Direction(u8),
    Mode(u8),
    Width(u8),
    Inputs(u64),
    Outputs(u64),
}

// The bits of the fields so far.
#[derive(Clone, Copy)]
struct Bits {
    inputs: u64,
    outputs: u64,
}

// A byte that is not there counts as 0.
fn byte_at(memory: &[u8], at: usize) -> u8 {
    memory.get(at).copied().unwrap_or(0)
}

fn has_string(bytes: &[u8]) -> bool {
    bytes.iter().any(|&b| b == 0)
}

fn has_two(bytes: &[u8]) -> bool {
    match bytes.iter().position(|&b| b == 0) {
        Some(n) => has_string(find::rest(bytes, n + 1)),
        None => false,
    }
}

fn field(memory: &[u8], at: usize) -> Option<Fault>
    requires { at ≤ 65535 }
{
    let kind = byte_at(memory, at + 2);
    let direction = byte_at(memory, at + 3);
    if !has_two(find::rest(memory, at + 14)) {
        return Some(Fault::Cut);
    }
    if 7 < kind {
        return Some(Fault::Type(kind));
    }
    match direction {
        0x00 | 0x40 | 0x80 => None,
        _ => Some(Fault::Direction(direction)),
    }
}

fn mode(memory: &[u8], at: usize) -> Option<Fault>
    requires { at ≤ 65535 }
{
    let kind = byte_at(memory, at + 2);
    if !has_string(find::rest(memory, at + 4)) {
        return Some(Fault::Cut);
    }
    if 1 < kind {
        return Some(Fault::Mode(kind));
    }
    None
}

fn record_fault(memory: &[u8], at: usize) -> Option<Fault>
    requires { at ≤ 65535 }
{
    if at == 0 {
        return Some(Fault::End);
    }
    if memory.len() <= at {
        return Some(Fault::Cut);
    }
    match memory[at] {
        0xA0 => field(memory, at),
        0xB0 => mode(memory, at),
        mark => Some(Fault::Mark(mark)),
    }
}

// The place of entry k of a table.
fn place_of(table: u16, k: u16) -> usize
    ensures { result ≤ 196605 }
{
    table as usize + 2 * k as usize
}

fn record_of(card: Card, k: u16) -> usize
    ensures { result ≤ 65535 }
{
    let at = place_of(card.table, k);
    u16::from_le_bytes([byte_at(card.memory, at), byte_at(card.memory, at + 1)]) as usize
}

// For 41.
fn unreadable(card: Card, k: u16) -> Option<Fault> {
    if card.memory.len() < place_of(card.table, k) + 2 {
        return Some(Fault::Outside);
    }
    record_fault(card.memory, record_of(card, k))
}

fn bits_of(width: u8, counts: bool) -> u64
    ensures { result ≤ 255 }
{
    if counts { width as u64 } else { 0 }
}

fn with_field(b: Bits, width: u8, direction: u8) -> Bits {
    Bits {
        inputs: b.inputs % 65536 + bits_of(width, direction != 0x80),
        outputs: b.outputs % 65536 + bits_of(width, direction != 0x00),
    }
}

// A mode holds no bits.
fn with_entry(b: Bits, memory: &[u8], at: usize) -> Bits
    requires { at ≤ 65535 }
{
    if byte_at(memory, at) != 0xA0 {
        return b;
    }
    with_field(b, byte_at(memory, at + 1), byte_at(memory, at + 3))
}

fn width_of(memory: &[u8], at: usize) -> u8
    requires { at ≤ 65535 }
{
    if byte_at(memory, at) != 0xA0 {
        return 1;
    }
    byte_at(memory, at + 1)
}

// For 42: `b` are the bits up to this entry, its own too.
fn overfull(memory: &[u8], at: usize, b: Bits) -> Option<Fault>
    requires { at ≤ 65535 }
{
    if at == 0 {
        return Some(Fault::End);
    }
    let width = width_of(memory, at);
    if (width == 0) | (64 < width) {
        return Some(Fault::Width(width));
    }
    if 96 < b.inputs {
        return Some(Fault::Inputs(b.inputs));
    }
    if 96 < b.outputs {
        return Some(Fault::Outputs(b.outputs));
    }
    None
}

fn hex(out: &mut [u8], at: usize, label: &[u8], digits: usize, n: u64) -> usize {
    let next = text::put(out, at, label);
    let next = text::put(out, next, b"0x");
    number::hex(out, next, digits, n)
}

fn bit_count(out: &mut [u8], at: usize, label: &[u8], n: u64, behind: &[u8]) -> usize {
    let next = line::numbered(out, at, label, n);
    text::put(out, next, behind)
}

fn wrong(out: &mut [u8], at: usize, fault: Fault) -> usize {
    match fault {
        Fault::End => text::put(out, at, b"the table ends"),
        Fault::Outside => text::put(out, at, b"the entry is past the memory's end"),
        Fault::Cut => text::put(out, at, b"the record goes past the memory's end"),
        Fault::Mark(b) => {
            let label = b"neither a field nor a mode begins with ";
            hex(out, at, label, 2, b as u64)
        }
        Fault::Type(b) => line::numbered(out, at, b"there is no type ", b as u64),
        Fault::Direction(b) => hex(out, at, b"there is no direction ", 2, b as u64),
        Fault::Mode(b) => line::numbered(out, at, b"there is no mode type ", b as u64),
        Fault::Width(n) => bit_count(out, at, b"a field of ", n as u64, b" bits, not 1 to 64"),
        Fault::Inputs(n) => bit_count(out, at, b"the inputs have ", n, b" bits with it, above 96"),
        Fault::Outputs(n) => {
            let label = b"the outputs have ";
            bit_count(out, at, label, n, b" bits with it, above 96")
        }
    }
}

// The entry by its number, from 0, and where it and its record stand.
fn placed(out: &mut [u8], at: usize, card: Card, k: u16) -> usize {
    let place = place_of(card.table, k);
    let next = line::numbered(out, at, b": entry ", k as u64);
    let next = hex(out, next, b" at ", 4, place as u64);
    if card.memory.len() < place + 2 {
        return next;
    }
    hex(out, next, b", record at ", 4, record_of(card, k) as u64)
}

fn said(out: &mut [u8], at: usize, card: Card, k: u16, fault: Fault) -> usize {
    let next = placed(out, at, card, k);
    let next = text::put(out, next, b": ");
    let next = wrong(out, next, fault);
    text::put(out, next, b"\n")
}

pub(crate) fn first_unreadable(out: &mut [u8], at: usize, card: Card) -> usize {
    for k in 0..65535 {
        if let Some(fault) = unreadable(card, k) {
            return said(out, at, card, k, fault);
        }
    }
    at
}

pub(crate) fn first_overfull(out: &mut [u8], at: usize, card: Card) -> usize {
    let mut bits = Bits {
        inputs: 0,
        outputs: 0,
    };
    for k in 0..65535 {
        let record = record_of(card, k);
        bits = with_entry(bits, card.memory, record);
        if let Some(fault) = overfull(card.memory, record, bits) {
            return said(out, at, card, k, fault);
        }
    }
    at
}
