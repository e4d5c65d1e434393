// The judging program: a recorded show or a capture of one on standard input, what is found of it on standard output. The card's store and
// pointers before the first packet are in the files named, or those of a fresh card.
#![tactic(auto)]

use card::check::STORE_BYTES;
use showcheck_output::given;
use showcheck_output::given::{Fault, Given};
use std::env::Env;
use std::io;
use std::io::{Read, Write};

fn say<W: Write>(
    to: &mut W,
    given: Result<Given, Fault>,
    file: &[u8],
    pointers: &[u8],
    show: &[u8],
    room: &mut [u8; 24576],
) -> io::Result<()> {
    let said = showcheck_output::whole(given, file, pointers, show, room);
    input::put(to, room, said)
}

// Nothing is read where nothing is done with it.
fn take<R: Read>(given: Result<Given, Fault>, from: &mut R, room: &mut [u8]) -> io::Result<usize> {
    if given::most_read(given) == 0 {
        return Ok(0);
    }
    input::all(from, room)
}

// Nor where the file could not be opened.
fn take_file<F: Read>(
    given: Result<Given, Fault>,
    opened: &mut Option<F>,
    room: &mut [u8],
) -> io::Result<usize> {
    match opened {
        None => Ok(0),
        Some(f) => take(given, f, room),
    }
}

fn hear<R: Read, W: Write, E: Write>(
    beside: &mut E,
    from: &mut R,
    to: &mut W,
    given: Result<Given, Fault>,
    file: &[u8],
    pointers: &[u8],
    show: &mut [u8; 3000001],
    room: &mut [u8; 24576],
) -> io::Result<()> {
    let taken = take(given, from, show);
    match taken {
        Ok(n) => say(to, given, file, pointers, input::front(show, n), room),
        Err(_) => input::cannot_read(beside),
    }
}

fn with_store<R: Read, W: Write, F: Read, E: Write>(
    beside: &mut E,
    from: &mut R,
    to: &mut W,
    given: Result<Given, Fault>,
    file: &[u8],
    other: &mut Option<F>,
    show: &mut [u8; 3000001],
    room: &mut [u8; 24576],
) -> io::Result<()> {
    let mut pointers = [0u8; 33];
    let taken = take_file(given, other, &mut pointers);
    match taken {
        Ok(n) => hear(
            beside,
            from,
            to,
            given,
            file,
            input::front(&pointers, n),
            show,
            room,
        ),
        Err(_) => input::cannot_read(beside),
    }
}

// Of each input one byte more is read than it may have, so that a longer one is noticed.
fn serve<R: Read, W: Write, F: Read, E: Write>(
    beside: &mut E,
    from: &mut R,
    to: &mut W,
    given: Result<Given, Fault>,
    opened: &mut Option<F>,
    other: &mut Option<F>,
    show: &mut [u8; 3000001],
    room: &mut [u8; 24576],
) -> io::Result<()> {
    let mut file = [0u8; STORE_BYTES + 1];
    let taken = take_file(given, opened, &mut file);
    match taken {
        Ok(n) => with_store(
            beside,
            from,
            to,
            given,
            input::front(&file, n),
            other,
            show,
            room,
        ),
        Err(_) => input::cannot_read(beside),
    }
}

fn main(rt: HostRuntime) -> io::Result<()> {
    let mut path = [0u8; 4096];
    let n = rt.arg(1, &mut path).unwrap_or(0);
    let mut opened = input::opened(&rt, &path[..n]);
    let mut second = [0u8; 4096];
    let m = rt.arg(2, &mut second).unwrap_or(0);
    let mut other = input::opened(&rt, &second[..m]);
    let given = given::given_by(
        input::words(&rt, 4),
        &path[..n],
        &second[..m],
        opened.is_some(),
        other.is_some(),
    );
    serve(
        &mut rt.stderr(),
        &mut rt.stdin(),
        &mut rt.stdout(),
        given,
        &mut opened,
        &mut other,
        &mut [0; 3000001],
        &mut [0; 24576],
    )
}
