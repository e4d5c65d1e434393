// A cue list from text: a text on standard input, its list or a line on standard output.
#![tactic(auto)]

use std::io;
use std::io::{Read, Write};

// The text has room for one byte more than it may have, so that a longer one is noticed.
fn serve<R: Read, W: Write, E: Write>(
    words: usize,
    from: &mut R,
    to: &mut W,
    beside: &mut E,
    text: &mut [u8; 3400001],
    room: &mut [u8; 1000000],
) -> io::Result<()> {
    let Ok(n) = input::asked(words, from, text) else {
        return input::cannot_read(beside);
    };
    let said = cueasm_output::report(words, input::front(text, n), room);
    input::put(to, room, said)
}

fn main(rt: HostRuntime) -> io::Result<()> {
    serve(
        input::words(&rt, 2),
        &mut rt.stdin(),
        &mut rt.stdout(),
        &mut rt.stderr(),
        &mut [0; 3400001],
        &mut [0; 1000000],
    )
}
