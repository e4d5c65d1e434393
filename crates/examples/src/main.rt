// Runs the examples that standard input has as text: the worked examples of the papers, and shows played end to end.
#![tactic(auto)]

mod answer;
mod form;
mod hex;
mod list;
mod pair;
mod script;
mod show;
mod slice;
mod wire;
mod word;

use std::io;

fn main(rt: HostRuntime) -> io::Result<()> {
    let words = input::words(&rt, 2);
    if words != 1 {
        return rt.print(
            "usage: examples < LINES\nRuns packets, bursts, words and lists; crates/examples/src/script.rt has the kinds of lines.\n",
        );
    }
    let mut script = [0; 32768];
    let Ok(n) = input::asked(words, &mut rt.stdin(), &mut script) else {
        return input::cannot_read(&mut rt.stderr());
    };
    script::play(&mut rt.stdout(), input::front(&script, n))
}
