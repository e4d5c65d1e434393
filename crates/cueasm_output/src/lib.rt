// What the program `cueasm` writes: a text's list, or a line that says why there is none.
#![tactic(auto)]

mod sentence;

ghost use Rattle.std.specs.Prelude.{◌≡◌};
ghost use Rattle.text.specs.Room.{filled, text_left};
ghost use Rattle.cueasm_output.specs.Report.{said};

use text::line;

// The most bytes that a text may have.
const MOST: usize = 3400000;

// `words`: how many the program was started with, its name among them. The bytes to write stand at the front of the room; how many they
// are is answered.
pub fn report(words: usize, input: &[u8], room: &mut [u8; 1000000]) -> usize
    ensures { filled result room.new ≡ text_left (said words input.now) room.old }
{
    if words != 1 {
        return text::put(room, 0, b"usage: cueasm < TEXT\n");
    }
    if MOST < input.len() {
        return line::too_long(room, 0);
    }
    match cue_text::assemble(input, room) {
        Ok(written) => written.bytes,
        Err(r) => sentence::put_sentence(room, input, r.rule.number(), r.place),
    }
}
