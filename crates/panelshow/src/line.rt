// A field's line: its name, and its reading and unit or, where it has no reading, its value and type. Each function answers the place behind
// what it put.
use lbp16::{Refusal, Rule};
use sserial::table::Field;
use text::{find, line, number};

// A dot and three digits.
fn fraction(out: &mut [u8], at: usize, n: u64) -> usize {
    let next = line::numbered(out, at, b".", n / 100 % 10);
    let next = number::decimal(out, next, n / 10 % 10);
    number::decimal(out, next, n % 10)
}

fn thousandths(out: &mut [u8], at: usize, n: u64) -> usize {
    let next = number::decimal(out, at, n / 1000);
    fraction(out, next, n)
}

fn magnitude(out: &mut [u8], at: usize, x: f32) -> usize {
    let n = x * 1000.0 + 0.5;
    if n > -1.0 {
        if n < 18446744073709551616.0 {
            return thousandths(out, at, std::num::truncating_f32_to_u64(n));
        }
    }
    text::put(out, at, b"more than 18446744073709551")
}

fn value(out: &mut [u8], at: usize, x: f32) -> usize {
    if x < 0.0 {
        let next = text::put(out, at, b"-");
        return magnitude(out, next, -x);
    }
    magnitude(out, at, x)
}

fn measured(out: &mut [u8], at: usize, unit: &[u8], x: f32) -> usize {
    let next = text::put(out, at, b": ");
    let next = value(out, next, x);
    let next = text::put(out, next, b" ");
    text::put(out, next, unit)
}

// The data types.
fn type_word(out: &mut [u8], at: usize, kind: u8) -> usize {
    match kind {
        0 => text::put(out, at, b"pad"),
        1 => text::put(out, at, b"bits"),
        2 => text::put(out, at, b"unsigned"),
        3 => text::put(out, at, b"signed"),
        4 => text::put(out, at, b"nonvolatile unsigned"),
        5 => text::put(out, at, b"nonvolatile signed"),
        6 => text::put(out, at, b"stream"),
        _ => text::put(out, at, b"boolean"),
    }
}

fn plain(out: &mut [u8], at: usize, kind: u8, value: u64) -> usize {
    match kind {
        3 | 5 => number::signed(out, at, value),
        _ => number::decimal(out, at, value),
    }
}

// ReadingField is what the type and the width say.
fn why(out: &mut [u8], at: usize, f: Field, r: Refusal) -> usize {
    if r.rule == Rule::ReadingField {
        return line::numbered(out, at, b", width ", f.width as u64);
    }
    line::numbered(out, at, b", no reading: ", u64::from(r.rule.number()))
}

fn unmeasured(out: &mut [u8], at: usize, f: Field, value: u64, r: Refusal) -> usize {
    let next = text::put(out, at, b": ");
    let next = plain(out, next, f.kind, value);
    let next = text::put(out, next, b" (");
    let next = type_word(out, next, f.kind);
    let next = why(out, next, f, r);
    text::put(out, next, b")")
}

fn answered(
    out: &mut [u8],
    at: usize,
    unit: &[u8],
    f: Field,
    value: u64,
    answer: Result<f32, Refusal>,
) -> usize {
    match answer {
        Ok(x) => measured(out, at, unit, x),
        Err(r) => unmeasured(out, at, f, value, r),
    }
}

pub(crate) fn reading(
    out: &mut [u8],
    memory: &[u8],
    f: Field,
    value: u64,
    answer: Result<f32, Refusal>,
) -> usize {
    let next = text::put(out, 0, find::string(memory, f.name));
    let next = answered(out, next, find::string(memory, f.unit), f, value, answer);
    text::put(out, next, b"\n")
}
