// What the planning program writes: tighter packets for a list, or a line that says why there are none.
#![tactic(auto)]

ghost use Rattle.cuetight_output.specs.Report.{Reported};

use text::line;

// The most bytes that a list may have.
const MOST: usize = 16384;

// The bytes to write stand at the front of the room; how many they are is answered.
pub fn report(input: &[u8], room: &mut [u8; 32768]) -> usize
    ensures { Reported input.now room.old result room.new }
{
    if MOST < input.len() {
        return line::too_long(room, 0);
    }
    match planner::tighten(input, room) {
        Ok(packed) => packed.bytes,
        Err(r) => line::refused(room, 0, r.rule.number() as u64, r.place),
    }
}
