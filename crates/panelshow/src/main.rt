// The panel's readings of one card, a line for each field that the card sends. Standard input has the address of the card's table
// (2 bytes), a channel's three registers (4 bytes each), all low byte first, and then the card's memory.
#![tactic(auto)]

ghost use Rattle.std.specs.Prelude.{◌+◌, ◌≤◌, length};

mod fault;
mod line;

use fault::Card;
use lbp16::Rule;
use sserial::table::{Direction, Field};
use sserial::{call, count, field};
use std::io;
use std::io::Write;

fn put<W: Write>(to: &mut W, out: &[u8], n: usize) -> io::Result<()> {
    if n <= out.len() {
        return to.write_all(&out[..n]);
    }
    Ok(())
}

fn put_fault(out: &mut [u8], at: usize, card: Card, rule: Rule) -> usize {
    match rule {
        Rule::Table => fault::first_unreadable(out, at, card),
        _ => fault::first_overfull(out, at, card),
    }
}

fn refused<W: Write>(to: &mut W, out: &mut [u8], card: Card, rule: Rule) -> io::Result<()> {
    let number = u64::from(rule.number());
    let next = text::line::numbered(out, 0, b"the table is refused with ", number);
    let n = put_fault(out, next, card, rule);
    put(to, out, n)
}

fn told<W: Write>(
    to: &mut W,
    out: &mut [u8],
    card: Card,
    index: u64,
    f: Field,
    value: u64,
) -> io::Result<()> {
    let reading = panel::fields::field_reading(card.memory, card.table, index, value);
    let n = line::reading(out, card.memory, f, value, reading);
    put(to, out, n)
}

// How many values have been shown after this field.
fn shown<W: Write>(
    to: &mut W,
    out: &mut [u8],
    card: Card,
    index: u64,
    values: &[u64],
    k: usize,
) -> io::Result<usize> {
    let Ok(f) = field::field(card.memory, card.table, index) else {
        return Ok(k);
    };
    if (f.direction == 0x80) | (values.len() <= k) {
        return Ok(k);
    }
    told(to, out, card, index, f, values[k])?;
    Ok(k + 1)
}

// A table has at most 96 fields each way.
fn readings<W: Write>(to: &mut W, out: &mut [u8], card: Card, values: &[u64]) -> io::Result<()> {
    let mut k: usize = 0;
    for index in 0..192 {
        k = shown(to, out, card, index, values, k)?;
    }
    Ok(())
}

fn unpacked<W: Write>(
    to: &mut W,
    out: &mut [u8],
    card: Card,
    registers: &[u32],
    values: &mut [u64],
) -> io::Result<()> {
    // The values stay 0 where they are refused.
    let _ = call::unpack(
        card.memory,
        card.table,
        Direction::Inputs,
        0,
        registers,
        values,
    );
    readings(to, out, card, values)
}

fn incoming<W: Write>(
    to: &mut W,
    out: &mut [u8],
    card: Card,
    n: usize,
    registers: &[u32],
    room: &mut [u64],
) -> io::Result<()> {
    if n <= room.len() {
        return unpacked(to, out, card, registers, &mut room[..n]);
    }
    Ok(())
}

fn show_card<W: Write>(
    to: &mut W,
    out: &mut [u8],
    card: Card,
    registers: &[u32],
) -> io::Result<()> {
    match count::count_fields(card.memory, card.table) {
        Err(r) => refused(to, out, card, r.rule),
        Ok(counts) => incoming(to, out, card, counts.inputs, registers, &mut [0; 96]),
    }
}

fn register(bytes: &[u8], at: usize) -> u32
    requires { at + 4 ≤ length bytes.now }
{
    u32::from_le_bytes([bytes[at], bytes[at + 1], bytes[at + 2], bytes[at + 3]])
}

fn show<W: Write>(to: &mut W, out: &mut [u8], input: &[u8]) -> io::Result<()> {
    if input.len() < 14 {
        return to.write_all(b"no table address and three registers\n");
    }
    let mut registers = [0u32; 24];
    registers[0] = register(input, 2);
    registers[1] = register(input, 6);
    registers[2] = register(input, 10);
    let card = Card {
        memory: &input[14..],
        table: u16::from_le_bytes([input[0], input[1]]),
    };
    show_card(to, out, card, &registers)
}

fn usage(rt: &impl Print) -> io::Result<()> {
    rt.print(
        "usage: panelshow < CARD\nCARD is, low byte first: the address of the card's process table (2 bytes), ",
    )?;
    rt.print(
        "a channel's interface registers 0, 1 and 2 (4 bytes each),\nand the card's memory from address 0. ",
    )?;
    rt.print(
        "The address is the low word of interface register 2 after a start; the memory is read by\nremote reads; ",
    )?;
    rt.print("the registers are those that hold the inputs after an exchange.\n")?;
    rt.print(
        "A reading is the value times the maximum by the largest value; the minimum is left out.\n",
    )
}

// A line has room for a name and a unit that are the whole memory.
fn main(rt: HostRuntime) -> io::Result<()> {
    let words = input::words(&rt, 2);
    if words != 1 {
        return usage(&rt);
    }
    let mut card = [0; 65550];
    let Ok(n) = input::asked(words, &mut rt.stdin(), &mut card) else {
        return input::cannot_read(&mut rt.stderr());
    };
    show(&mut rt.stdout(), &mut [0; 131200], input::front(&card, n))
}
