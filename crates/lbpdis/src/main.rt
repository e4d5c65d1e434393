// Packets behind "LB" from standard input, each in words on standard output.
#![tactic(auto)]

use lbp16::pointer::Pointers;
use lbpdis_output::ROOM;
use std::io;
use std::io::{Read, Write};

// The most bytes that the input may have.
const MOST: usize = 3000000;

// Part after part, from a fresh card; the pointers are carried on.
fn show<W: Write>(to: &mut W, bytes: &[u8], room: &mut [u8; ROOM]) -> io::Result<()> {
    let mut pointers = Pointers::fresh();
    let mut rest = bytes;
    for i in 0..MOST as u64 {
        let part = lbpdis_output::put_part(room, i, rest, pointers);
        input::put(to, room, part.bytes)?;
        let Some(n) = part.passed else {
            return Ok(());
        };
        pointers = part.pointers;
        rest = &rest[n..];
    }
    Ok(())
}

fn report<W: Write>(to: &mut W, bytes: &[u8], room: &mut [u8; ROOM]) -> io::Result<()> {
    if MOST < bytes.len() {
        return to.write_all(b"too long\n");
    }
    show(to, bytes, room)
}

fn serve<R: Read, W: Write, E: Write>(
    words: usize,
    from: &mut R,
    to: &mut W,
    beside: &mut E,
    bytes: &mut [u8; 3000001],
) -> io::Result<()> {
    let Ok(n) = input::asked(words, from, bytes) else {
        return input::cannot_read(beside);
    };
    report(to, input::front(bytes, n), &mut [0; ROOM])
}

fn main(rt: HostRuntime) -> io::Result<()> {
    let words = input::words(&rt, 2);
    if words != 1 {
        return rt.print(
            "usage: lbpdis < OUTPUT\nThe packets of an output, each behind \"LB\" and its length, in words.\n",
        );
    }
    // Room for one byte more than the input may have, so that a longer one is noticed.
    serve(
        words,
        &mut rt.stdin(),
        &mut rt.stdout(),
        &mut rt.stderr(),
        &mut [0; 3000001],
    )
}
