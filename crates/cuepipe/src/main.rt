// A cue list of any length from standard input, its packets to standard output as they are finished, and in the end the
// refusal's line if there is one.
#![tactic(auto)]

use parts::STATE_BYTES;
use std::io;
use std::io::{Read, Write};

// The most bytes of a part: each might finish a packet of 1,476 bytes, and all of these must stand in the room.
const PART: usize = 16;

// More than 1,476 bytes for each byte of a part and for one packet more, so that nothing is cut off.
const ROOM: usize = 25093;

// A good list has at most 1,000,000 bytes, and a longer one is refused before so many are read.
const MOST: usize = 1048576;

// Takes a part that was read, and writes what comes of it. Whether another may follow.
fn feed<W: Write>(to: &mut W, state: &mut [u8], part: &[u8], room: &mut [u8]) -> io::Result<bool> {
    let fed = cuepipe_output::feed(state, part, room);
    input::put(to, room, fed.bytes)?;
    Ok(fed.more)
}

fn serve<R: Read, W: Write, E: Write>(beside: &mut E, from: &mut R, to: &mut W) -> io::Result<()> {
    let mut state = [0; STATE_BYTES];
    let mut part = [0; PART];
    let mut room = [0; ROOM];
    let mut at: usize = 0;
    // How far a turn goes is known only once it has read.
    while at < MOST {
        let Ok(n) = input::some(from, &mut part) else {
            return input::cannot_read(beside);
        };
        let more = feed(to, &mut state, input::front(&part, n), &mut room)?;
        if (n == 0) | !more {
            return Ok(());
        }
        at += n;
    }
    Ok(())
}

fn main(rt: HostRuntime) -> io::Result<()> {
    if input::words(&rt, 2) != 1 {
        return rt.print(
            "usage: cuepipe < LIST\nThe packets of a cue list of any length, each as it is finished.\n",
        );
    }
    serve(&mut rt.stderr(), &mut rt.stdin(), &mut rt.stdout())
}
