// Forms filled with values and bytes, on standard output. No contract can say what is written.
ghost use Rattle.std.specs.Prelude.{◌≤◌, length};

use crate::slice;
use packet::bytes;
use std::io;
use std::io::Write;
use text::number;

pub(crate) fn say<W: Write>(to: &mut W, text: &[u8]) -> io::Result<()> {
    to.write_all(text)
}

// All bytes, each after a space, or where they are more than `most` the first and the last eight.
fn shown(out: &mut [u8], at: usize, s: &[u8], most: u64) -> usize
    requires { 8 ≤ most }
{
    let n = s.len() as u64;
    if n <= most {
        return number::bytes(out, at, s);
    }
    let next = number::bytes(out, at, slice::part(s, 0, 8));
    let next = text::put(out, next, b" ..");
    number::bytes(out, next, slice::part(s, n - 8, 8))
}

// The bytes of the first packet of an output, with its mark and length.
fn frame_bytes(rest: &[u8]) -> usize
    requires { 4 ≤ length rest.now }
    ensures { (4 ≤ result) × (result ≤ length rest.now) }
{
    slice::within(4 + bytes::pair_at(rest, 2) as u64, rest)
}

// The packets of an output, without their marks and lengths.
#[derive(Clone, Copy)]
pub(crate) struct Packets<'a>(pub(crate) &'a [u8]);

impl<'a> Iterator for Packets<'a> {
    ghost use Rattle.std.specs.Prelude.{length};
    ghost use Rattle.std.specs.Iterator.{at_most};

    type Item = &'a [u8];

    ghost remaining = { λ s. at_most (length s.0.now) };

    fn next(&mut self) -> Option<&'a [u8]> {
        if self.0.len() < 4 {
            return None;
        }
        let (frame, others) = self.0.split_at(frame_bytes(self.0));
        self.0 = others;
        Some(&frame[4..])
    }
}

// The lengths of an output's packets.
fn lengths(out: &mut [u8], at: usize, packets: &[u8]) -> usize {
    let mut next = at;
    for packet in Packets(packets) {
        next = text::line::numbered(out, next, b" ", packet.len() as u64);
    }
    next
}

// What a byte of a form stands for, or itself.
fn put(out: &mut [u8], at: usize, c: u8, v: u64, sent: &[u8], got: &[u8]) -> usize {
    match c {
        b'#' => number::decimal(out, at, v),
        b'%' => number::byte(out, at, (v % 256) as u8),
        b'@' => number::hex(out, at, 4, v),
        b'^' => number::decimal(out, at, sent.len() as u64),
        b'*' => shown(out, at, sent, 128),
        b'&' => shown(out, at, got, 32),
        b'$' => shown(out, at, got, 128),
        b'~' => lengths(out, at, got),
        _ => text::put(out, at, &[c]),
    }
}

// Whether the form is in a part that is left out, behind a byte.
fn left_out(c: u8, v: u64, out: bool) -> bool {
    match c {
        b'[' => v == 0,
        b'|' => !out,
        b']' => false,
        _ => out,
    }
}

// A byte of a form, unless it is left out.
fn part(out: &mut [u8], at: usize, left: bool, c: u8, v: u64, sent: &[u8], got: &[u8]) -> usize {
    match c {
        // These only begin, part or end a choice.
        b'[' | b'|' | b']' => at,
        _ => {
            if left {
                return at;
            }
            put(out, at, c, v, sent, got)
        }
    }
}

// How many values a byte takes.
fn taken(c: u8) -> usize
    ensures { result ≤ 1 }
{
    match c {
        b'#' | b'%' | b'@' | b'[' => 1,
        _ => 0,
    }
}

// The line in a room.
fn filled(room: &mut [u8], form: &[u8], values: [u64; 9], sent: &[u8], got: &[u8]) -> usize {
    let mut at: usize = 0;
    let mut out = false;
    let mut next: usize = 0;
    for &c in form {
        let v = values[next % 9];
        out = left_out(c, v, out);
        at = part(room, at, out, c, v, sent, got);
        next += taken(c);
    }
    at
}

// A form with values put in, one after the other: # in decimal, % as a byte, @ in four hexadecimal digits. Of [A|B] it is A
// where the value is not 0, else B; values of the other are passed over. * stands for the bytes sent and ^ for their number,
// & and $ for those that came of them, whole up to 32 or 128, and ~ for the lengths of the packets in these.
pub(crate) fn fill_with<W: Write>(
    to: &mut W,
    form: &[u8],
    values: [u64; 9],
    sent: &[u8],
    got: &[u8],
) -> io::Result<()> {
    let mut room = [0u8; 16384];
    let n = filled(&mut room, form, values, sent, got);
    say(to, slice::part(&room, 0, n as u64))
}

// The same of values alone.
pub(crate) fn fill<W: Write>(to: &mut W, form: &[u8], values: [u64; 9]) -> io::Result<()> {
    fill_with(to, form, values, b"", b"")
}
