// Compiling a cue list that comes in parts, cut anywhere. What is known between calls stands in a state that the caller
// lends: 1,504 bytes, all 0 before the first call.
#![tactic(auto)]

use cue::frame;
use lbp16::Rule;
use packet::judge::Verdict;

mod call;
mod layout;
mod single;
mod state;
mod take;

ghost use Rattle.std.specs.Prelude.{◌≡◌};
ghost use Rattle.parts.specs.Parts.{part_of, part_left};
ghost use Rattle.parts.specs.Promise.{Promised};

// The state's bytes.
pub const STATE_BYTES: usize = 1504;

// The bytes written, or why nothing was; `taken` bytes of the part were taken.
#[derive(Clone, Copy, Debug, PartialEq, Eq)]
pub struct Part {
    pub answer: Verdict,
    pub taken: usize,
}

// Takes bytes of a part until a packet is finished and written, a fault shows or the part ends. `last`: the list ends at
// this part's end. The next call gets the state as this one left it, and the bytes not yet taken.
pub fn compile_part(state: &mut [u8], part: &[u8], last: bool, out: &mut [u8]) -> Part
    ensures compiled { part_left result.answer result.taken state.new out.new
        ≡ part_of state.old part.now last out.old }
    ensures promise { Promised state.new }
{
    if out.len() < frame::ROOM {
        return Part {
            answer: Err(Rule::Room.at(frame::ROOM as u64)),
            taken: 0,
        };
    }
    if (part.len() != 1) | (last | (state.len() != STATE_BYTES)) {
        return call::called(state, part, last, out);
    }
    if single::lengthened(state, part[0]) {
        return Part {
            answer: Ok(0),
            taken: 1,
        };
    }
    call::called(state, part, last, out)
}
