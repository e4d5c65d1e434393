// Why a packet is refused: a captured packet on standard input, or packets behind "LB", or hexadecimal text of these, from a fresh card or
// from the pointers in the file named.
#![tactic(auto)]

use std::env::Env;
use std::io;
use std::io::{Read, Write};
use std::rt::Files;
use why_output::words;
use why_output::words::Words;

fn take<R: Read>(w: Words, found: bool, from: &mut R, bytes: &mut [u8]) -> io::Result<usize> {
    let most = words::most_read(w, found).min(bytes.len());
    input::all(from, &mut bytes[..most])
}

fn answer<W: Write>(
    to: &mut W,
    w: Words,
    found: bool,
    file: &[u8],
    bytes: &[u8],
    room: &mut [u8; 16384],
) -> io::Result<()> {
    let said = why_output::whole(w, found, file, bytes, room);
    input::put(to, room, said)
}

// `bytes` has room for one byte more than the input may have, so that a longer one is noticed.
fn serve<R: Read, W: Write, E: Write>(
    beside: &mut E,
    from: &mut R,
    to: &mut W,
    w: Words,
    found: bool,
    file: &[u8],
    bytes: &mut [u8; 3000001],
    room: &mut [u8; 16384],
) -> io::Result<()> {
    let taken = take(w, found, from, bytes);
    match taken {
        Err(_) => input::cannot_read(beside),
        Ok(n) => answer(to, w, found, file, input::front(bytes, n), room),
    }
}

// A file that cannot be opened has nothing to read.
fn read_file<F: Read>(opened: &mut Option<F>, file: &mut [u8]) -> io::Result<usize> {
    match opened {
        None => Ok(0),
        Some(f) => input::all(f, file),
    }
}

fn open<F: Files>(rt: &F, w: Words, first: &[u8], second: &[u8], third: &[u8]) -> Option<F::File> {
    let words = [first, second, third];
    input::opened(rt, words.get(w.name?.checked_sub(1)?)?)
}

fn judge<R: Read, W: Write, E: Write>(
    beside: &mut E,
    from: &mut R,
    to: &mut W,
    w: Words,
    found: bool,
    file: &[u8],
) -> io::Result<()> {
    serve(
        beside,
        from,
        to,
        w,
        found,
        file,
        &mut [0; 3000001],
        &mut [0; 16384],
    )
}

fn start<R: Read, W: Write, F: Read + Drop, E: Write>(
    beside: &mut E,
    from: &mut R,
    to: &mut W,
    w: Words,
    mut opened: Option<F>,
    file: &mut [u8; 33],
) -> io::Result<()> {
    let found = opened.is_some();
    let had = read_file(&mut opened, file);
    match had {
        Err(_) => input::cannot_read(beside),
        Ok(k) => judge(beside, from, to, w, found, input::front(file, k)),
    }
}

fn main(rt: HostRuntime) -> io::Result<()> {
    let mut first = [0u8; 4096];
    let n = rt.arg(1, &mut first).unwrap_or(0);
    let mut second = [0u8; 4096];
    let m = rt.arg(2, &mut second).unwrap_or(0);
    let mut third = [0u8; 4096];
    let k = rt.arg(3, &mut third).unwrap_or(0);
    let w = words::words_of(input::words(&rt, 5), &first[..n], &second[..m], &third[..k]);
    let opened = open(&rt, w, &first[..n], &second[..m], &third[..k]);
    start(
        &mut rt.stderr(),
        &mut rt.stdin(),
        &mut rt.stdout(),
        w,
        opened,
        &mut [0; 33],
    )
}
