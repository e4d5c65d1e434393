// One call of the library, put as a line. Each function answers the place behind what it put; what the room does not hold is cut off.
use lbp16::Refusal;
use sserial::count::FieldCounts;
use sserial::table::Field;
use sserial::{count, field};
use text::{find, line, number};

fn refusal(out: &mut [u8], at: usize, r: Refusal) -> usize {
    let next = line::numbered(out, at, b" refused ", u64::from(r.rule.number()));
    line::numbered(out, next, b" at ", r.place)
}

fn counted(out: &mut [u8], at: usize, answer: Result<FieldCounts, Refusal>) -> usize {
    match answer {
        Ok(counts) => {
            let next = line::numbered(out, at, b" fields in ", counts.inputs as u64);
            line::numbered(out, next, b", out ", counts.outputs as u64)
        }
        Err(r) => refusal(out, at, r),
    }
}

pub(crate) fn counts(out: &mut [u8], at: usize, memory: &[u8], table: u16) -> usize {
    let next = counted(out, at, count::count_fields(memory, table));
    text::put(out, next, b"\n")
}

fn direction(out: &mut [u8], at: usize, d: u8) -> usize {
    match d {
        0x00 => text::put(out, at, b" in, "),
        0x80 => text::put(out, at, b" out, "),
        _ => text::put(out, at, b" in and out, "),
    }
}

fn kind(out: &mut [u8], at: usize, f: Field) -> usize {
    let next = direction(out, at, f.direction);
    let next = number::decimal(out, next, f.width as u64);
    line::numbered(out, next, b" bits, type ", f.kind as u64)
}

fn range(out: &mut [u8], at: usize, f: Field) -> usize {
    let next = text::put(out, at, b", ");
    let next = number::hex(out, next, 8, f.minimum as u64);
    let next = text::put(out, next, b" to ");
    number::hex(out, next, 8, f.maximum as u64)
}

// A string of the memory, and where it stands.
fn string(out: &mut [u8], at: usize, label: &[u8], memory: &[u8], place: usize) -> usize {
    let next = line::numbered(out, at, label, place as u64);
    let next = text::put(out, next, b" \"");
    let next = text::put(out, next, find::string(memory, place));
    text::put(out, next, b"\"")
}

fn one_field(out: &mut [u8], at: usize, memory: &[u8], f: Field) -> usize {
    let next = kind(out, at, f);
    let next = range(out, next, f);
    let next = string(out, next, b", unit at ", memory, f.unit);
    string(out, next, b", name at ", memory, f.name)
}

fn answered(out: &mut [u8], at: usize, memory: &[u8], answer: Result<Field, Refusal>) -> usize {
    match answer {
        Ok(f) => one_field(out, at, memory, f),
        Err(r) => refusal(out, at, r),
    }
}

fn field(
    out: &mut [u8],
    at: usize,
    memory: &[u8],
    index: u64,
    answer: Result<Field, Refusal>,
) -> usize {
    let next = line::numbered(out, at, b"field ", index);
    let next = text::put(out, next, b":");
    let next = answered(out, next, memory, answer);
    text::put(out, next, b"\n")
}

// Every field of the table, and where it ends.
pub(crate) fn fields(out: &mut [u8], at: usize, memory: &[u8], table: u16) -> usize {
    let mut next = at;
    for index in 0..193 {
        let answer = field::field(memory, table, index);
        next = field(out, next, memory, index, answer);
        if answer.is_err() {
            return next;
        }
    }
    next
}

fn number(out: &mut [u8], at: usize, n: u64) -> usize {
    let next = text::put(out, at, b" ");
    number::signed(out, next, n)
}

fn numbers(out: &mut [u8], at: usize, values: &[u64]) -> usize {
    let mut next = at;
    for &n in values {
        next = number(out, next, n);
    }
    next
}

fn answer(out: &mut [u8], at: usize, a: Result<(), Refusal>) -> usize {
    match a {
        Ok(()) => text::put(out, at, b" done"),
        Err(r) => refusal(out, at, r),
    }
}

// A label, a channel's number, and a colon.
fn labelled(out: &mut [u8], at: usize, label: &[u8], n: u64) -> usize {
    let next = line::numbered(out, at, label, n);
    text::put(out, next, b":")
}

pub(crate) fn packed(
    out: &mut [u8],
    at: usize,
    channel: u32,
    values: &[u64],
    a: Result<(), Refusal>,
) -> usize {
    let next = labelled(out, at, b"packed into channel ", channel as u64);
    let next = numbers(out, next, values);
    let next = text::put(out, next, b":");
    let next = answer(out, next, a);
    text::put(out, next, b"\n")
}

pub(crate) fn unpacked(
    out: &mut [u8],
    at: usize,
    channel: u32,
    values: &[u64],
    a: Result<(), Refusal>,
) -> usize {
    let next = labelled(out, at, b"unpacked from channel ", channel as u64);
    let next = answer(out, next, a);
    let next = text::put(out, next, b":");
    let next = numbers(out, next, values);
    text::put(out, next, b"\n")
}

fn register(out: &mut [u8], at: usize, w: u32) -> usize {
    let next = text::put(out, at, b" ");
    number::hex(out, next, 8, w as u64)
}

fn registers(out: &mut [u8], at: usize, words: &[u32]) -> usize {
    let mut next = at;
    for &w in words {
        next = register(out, next, w);
    }
    next
}

// A channel's registers, register 0 first.
pub(crate) fn channel(out: &mut [u8], at: usize, k: u64, words: &[u32]) -> usize {
    let next = labelled(out, at, b"channel ", k);
    let next = registers(out, next, words);
    text::put(out, next, b"\n")
}
