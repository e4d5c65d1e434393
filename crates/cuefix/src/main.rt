// The salvaging program: a damaged cue list on standard input, a playable one on standard output and its account on standard error, or the
// account alone on standard output.
#![tactic(auto)]

use cuefix_output::{Request, Told, lines};
use salvage::scan::Counts;
use std::env::Env;
use std::io;
use std::io::{Read, Write};

// The record before a stretch, and the stretch.
fn put_stretch<W: Write>(
    to: &mut W,
    list: &[u8],
    from: usize,
    start: u64,
    n: u64,
) -> io::Result<()> {
    let mut room = [0u8; 128];
    let k = lines::look(&mut room, list, from, start as usize);
    input::put(to, &room, k)?;
    let mut line = [0u8; 64];
    let k = lines::skipped(&mut line, start, n);
    input::put(to, &line, k)
}

// The place behind a stretch of a list of at most 1,000,000 bytes.
fn behind(start: u64, n: u64) -> usize {
    (start % 1000001 + n % 1000001) as usize
}

// The lines of each entry, written as they are made.
fn put_skipped<W: Write>(to: &mut W, list: &[u8], log: &[u64]) -> io::Result<()> {
    let mut from: usize = 0;
    for &[start, n] in log.as_chunks::<2>().0 {
        put_stretch(to, list, from, start, n)?;
        from = behind(start, n);
    }
    Ok(())
}

fn put_account<W: Write>(to: &mut W, list: &[u8], log: &[u64], counts: Counts) -> io::Result<()> {
    let entries = counts.entries;
    if entries <= log.len() / 2 {
        put_skipped(to, list, &log[..2 * entries])?;
    }
    let mut line = [0u8; 64];
    let n = lines::kept(&mut line, counts.records as u64, counts.bytes as u64);
    input::put(to, &line, n)
}

fn put_usage<W: Write>(to: &mut W) -> io::Result<()> {
    let mut line = [0u8; 64];
    let n = lines::usage(&mut line);
    input::put(to, &line, n)
}

fn put_too_long<W: Write>(to: &mut W) -> io::Result<()> {
    let mut line = [0u8; 64];
    let n = lines::too_long(&mut line);
    input::put(to, &line, n)
}

fn answer<W: Write, E: Write>(
    to: &mut W,
    beside: &mut E,
    request: Request,
    list: &[u8],
) -> io::Result<()> {
    let mut room = [0; 1000000];
    let mut log = [0; 285716];
    match cuefix_output::answer(request, list, &mut room, &mut log) {
        Told::Usage => put_usage(to),
        Told::TooLong => put_too_long(to),
        Told::List(counts) => {
            input::put(to, &room, counts.bytes)?;
            put_account(beside, list, &log, counts)
        }
        Told::Account(counts) => put_account(to, list, &log, counts),
    }
}

fn take<R: Read>(request: Request, from: &mut R, bytes: &mut [u8]) -> io::Result<usize> {
    let most = cuefix_output::most_read(request).min(bytes.len());
    input::all(from, &mut bytes[..most])
}

// `bytes` has room for one byte more than a list may have, so that a longer one is noticed.
fn serve<R: Read, W: Write, E: Write>(
    from: &mut R,
    to: &mut W,
    beside: &mut E,
    request: Request,
    bytes: &mut [u8; 1000001],
) -> io::Result<()> {
    let Ok(n) = take(request, from, bytes) else {
        return input::cannot_read(beside);
    };
    answer(to, beside, request, input::front(bytes, n))
}

fn main(rt: HostRuntime) -> io::Result<()> {
    let mut word = [0u8; 8];
    let n = rt.arg(1, &mut word).unwrap_or(0);
    let request = cuefix_output::request_of(input::words(&rt, 3), &word[..n]);
    serve(
        &mut rt.stdin(),
        &mut rt.stdout(),
        &mut rt.stderr(),
        request,
        &mut [0; 1000001],
    )
}
