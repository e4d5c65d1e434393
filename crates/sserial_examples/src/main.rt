// Worked examples of daughter card fields: document 000's 7I76E in mode 1, and small cards for signed fields, fields across two
// registers and refused tables. A line for each. Standard input has the cards' memories.
#![tactic(auto)]

mod cards;
mod line;

use sserial::call;
use sserial::table::Direction;
use std::io;
use std::io::Write;

fn channels(out: &mut [u8], at: usize, registers: [u32; 24]) -> usize {
    let mut next = at;
    for k in 1..4 {
        next = line::channel(out, next, k as u64, &registers[3 * k..3 * k + 3]);
    }
    next
}

fn back(out: &mut [u8], at: usize, card: &[u8], registers: &[u32], values: &mut [u64]) -> usize {
    let a = call::unpack(card, 16, Direction::Outputs, 2, registers, values);
    line::unpacked(out, at, 2, values, a)
}

// The manual draws these values in their bytes: SPINOUT, TB5 OUTS and TB6 OUTS in register 0, SPINDIR and SPINENA in register 1.
fn outgoing(out: &mut [u8], at: usize, card: &[u8]) -> usize {
    let values = [0xA5u64, 0x3C, 0x1234, 1, 0, 1, 0];
    let mut registers = [0xFFFFFFFFu32; 24];
    let a = call::pack(card, 16, Direction::Outputs, 2, &values, &mut registers);
    let next = line::packed(out, at, 2, &values, a);
    let next = channels(out, next, registers);
    let next = back(out, next, card, &registers, &mut [0u64; 7]);
    let next = back(out, next, card, &registers, &mut [0u64; 6]);
    let a = call::pack(card, 16, Direction::Outputs, 8, &values, &mut registers);
    line::packed(out, next, 8, &values, a)
}

fn incoming(out: &mut [u8], at: usize, card: &[u8]) -> usize {
    let mut registers = [0u32; 24];
    registers[0] = 0x44332211;
    registers[1] = 0x88776655;
    registers[2] = 0xFFFFFFFF;
    let mut values = [0u64; 8];
    let next = line::channel(out, at, 0, &registers[0..3]);
    let a = call::unpack(card, 16, Direction::Inputs, 0, &registers, &mut values);
    let next = line::unpacked(out, next, 0, &values, a);
    let a = call::pack(card, 16, Direction::Inputs, 0, &values, &mut registers);
    let next = line::packed(out, next, 0, &values, a);
    line::channel(out, next, 0, &registers[0..3])
}

fn told(out: &mut [u8], at: usize, text: &[u8], card: &[u8], table: u16) -> usize {
    let next = text::put(out, at, text);
    line::counts(out, next, card, table)
}

// A memory without its last byte, which ends the software mode's name.
fn without_last(card: &[u8]) -> &[u8] {
    match card {
        [front @ .., _] => front,
        [] => card,
    }
}

fn mode_1(out: &mut [u8], at: usize, card: &[u8]) -> usize {
    let next = told(
        out,
        at,
        b"Document 000: the fields of a 7I76E in mode 1, table at 16\nthe table:",
        card,
        16,
    );
    let next = line::fields(out, next, card, 16);
    let next = outgoing(out, next, card);
    let next = incoming(out, next, card);
    let next = told(
        out,
        next,
        b"cut inside the last name:",
        without_last(card),
        16,
    );
    told(
        out,
        next,
        b"a table at 0, where the card's name stands:",
        card,
        0,
    )
}

fn tilt(out: &mut [u8], at: usize, card: &[u8], value: u64) -> usize {
    let values = [value];
    let mut registers = [0u32; 24];
    let a = call::pack(card, 0, Direction::Outputs, 0, &values, &mut registers);
    let next = line::packed(out, at, 0, &values, a);
    let next = line::channel(out, next, 0, &registers[0..3]);
    let mut read = [0u64; 1];
    let a = call::unpack(card, 0, Direction::Outputs, 0, &registers, &mut read);
    line::unpacked(out, next, 0, &read, a)
}

fn signed_ends(out: &mut [u8], at: usize, card: &[u8]) -> usize {
    let next = text::put(out, at, b"\nA signed field of 12 bits at its ends\n");
    let next = line::fields(out, next, card, 0);
    let next = tilt(out, next, card, 2047);
    let next = tilt(out, next, card, 18446744073709549568);
    let next = tilt(out, next, card, 2048);
    tilt(out, next, card, 18446744073709549567)
}

fn across(out: &mut [u8], at: usize, card: &[u8]) -> usize {
    let next = text::put(out, at, b"\nA field across two registers\n");
    let next = line::fields(out, next, card, 0);
    let values = [0xABCDEFu64, 0x1234];
    let mut registers = [0u32; 24];
    let a = call::pack(card, 0, Direction::Outputs, 7, &values, &mut registers);
    let next = line::packed(out, next, 7, &values, a);
    line::channel(out, next, 7, &registers[21..24])
}

fn example(out: &mut [u8], at: usize, k: usize, card: &[u8]) -> usize {
    match k {
        0 => mode_1(out, at, card),
        1 => signed_ends(out, at, card),
        2 => across(out, at, card),
        _ => told(out, at, b"\n97 bits:", card, 0),
    }
}

fn of_card(out: &mut [u8], at: usize, k: usize, input: &[u8]) -> usize {
    let memory = cards::card(input, k);
    example(out, at, k, input::front(&memory.bytes, memory.digits / 2))
}

fn all(out: &mut [u8], input: &[u8]) -> usize {
    let mut next: usize = 0;
    for k in 0..4 {
        next = of_card(out, next, k, input);
    }
    next
}

fn play<W: Write>(to: &mut W, cards: &[u8], out: &mut [u8; 8192]) -> io::Result<()> {
    let n = all(out, cards);
    input::put(to, out, n)
}

fn main(rt: HostRuntime) -> io::Result<()> {
    let words = input::words(&rt, 2);
    if words != 1 {
        return rt.print(
            "usage: sserial_examples < CARDS\nWorked examples of daughter card fields; CARDS are card memories as hexadecimal digits.\n",
        );
    }
    let mut cards = [0; 8192];
    let Ok(n) = input::asked(words, &mut rt.stdin(), &mut cards) else {
        return input::cannot_read(&mut rt.stderr());
    };
    play(&mut rt.stdout(), input::front(&cards, n), &mut [0; 8192])
}
