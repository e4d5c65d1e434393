// What is wrong with a cue list: a list on standard input, a line on standard output.
#![tactic(auto)]

use std::io;
use std::io::{Read, Write};

// The list has room for one byte more than it may have, so that a longer one is noticed.
fn serve<R: Read, W: Write, E: Write>(
    words: usize,
    from: &mut R,
    to: &mut W,
    beside: &mut E,
    list: &mut [u8; 1000001],
    room: &mut [u8; 256],
) -> io::Result<()> {
    let Ok(n) = input::asked(words, from, list) else {
        return input::cannot_read(beside);
    };
    let said = cuewhy_output::report(words, input::front(list, n), room);
    input::put(to, room, said)
}

fn main(rt: HostRuntime) -> io::Result<()> {
    serve(
        input::words(&rt, 2),
        &mut rt.stdin(),
        &mut rt.stdout(),
        &mut rt.stderr(),
        &mut [0; 1000001],
        &mut [0; 256],
    )
}
