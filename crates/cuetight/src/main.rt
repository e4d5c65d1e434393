// The planning program: a cue list on standard input, tighter packets for it or a line on standard output.
#![tactic(auto)]

use std::io;

fn main(rt: HostRuntime) -> io::Result<()> {
    let words = input::words(&rt, 2);
    if words != 1 {
        return rt.print(
            "usage: cuetight < LIST\nThe packets of a cue list of at most 16,384 bytes, in fewer bytes than cuec's where it can.\n",
        );
    }
    // Room for one byte more than a list may have, so that a longer one is noticed.
    let mut list = [0; 16385];
    let Ok(n) = input::asked(words, &mut rt.stdin(), &mut list) else {
        return input::cannot_read(&mut rt.stderr());
    };
    let mut room = [0; 32768];
    let said = cuetight_output::report(input::front(&list, n), &mut room);
    input::put(&mut rt.stdout(), &room, said)
}
