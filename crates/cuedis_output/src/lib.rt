// What the program `cuedis` writes: a cue list as text, or a line that says why there is none.
#![tactic(auto)]

ghost use Rattle.std.specs.Prelude.{◌≡◌};
ghost use Rattle.text.specs.Room.{filled, text_left};
ghost use Rattle.cuedis_output.specs.Report.{said};

use text::line;

// The most bytes that a list may have.
const MOST: usize = 1000000;

// `words`: how many the program was started with, its name among them. The bytes to write stand at the front of the room; how many they
// are is answered.
pub fn report(words: usize, input: &[u8], room: &mut [u8; 3400000]) -> usize
    ensures { filled result room.new ≡ text_left (said words input.now) room.old }
{
    if words != 1 {
        return text::put(room, 0, b"usage: cuedis < LIST\n");
    }
    if MOST < input.len() {
        return line::too_long(room, 0);
    }
    match list_text::write(input, room) {
        Ok(written) => written.bytes,
        Err(r) => line::refused(room, 0, r.rule.number() as u64, r.place),
    }
}
