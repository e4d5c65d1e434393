// What the compiling program writes: a list's packets, or a line that says why there are none.
#![tactic(auto)]

ghost use Rattle.std.specs.Prelude.{◌≡◌};
ghost use Rattle.text.specs.Room.{filled, text_left};
ghost use Rattle.cuec_output.specs.Report.{said};

use text::line;

// The most bytes that a list may have.
const MOST: usize = 16384;

// The bytes to write stand at the front of the room; how many they are is answered.
pub fn report(input: &[u8], room: &mut [u8; 32768]) -> usize
    ensures { filled result room.new ≡ text_left (said input.now) room.old }
{
    if MOST < input.len() {
        return line::too_long(room, 0);
    }
    match cue::compile(input, room) {
        Ok(packed) => packed.bytes,
        Err(r) => line::refused(room, 0, r.rule.number() as u64, r.place),
    }
}
