// A cue list that comes in parts, for C.
ghost use Rattle.std.specs.Prelude.{◌≡◌};
ghost use Rattle.parts.specs.Promise.{Promised};
ghost use Rattle.head.specs.PartsExports.{part_left, export_part};

use crate::numbers::numbers_of;

// Takes bytes of a part until a packet is finished and written, a fault shows or the part ends. `last` is not 0 where the
// list ends at the part's end. `taken` is how many bytes were taken; `value` the bytes written, or the refusal's place.
#[unsafe(no_mangle)]
pub extern "C" fn head_part(
    state: &mut [u8],
    part: &[u8],
    last: u32,
    out: &mut [u8],
    taken: &mut u64,
    value: &mut u64,
) -> u32
    ensures compiled { part_left result taken.new value.new state.new out.new
        ≡ export_part state.old part.now last out.old }
    ensures promise { Promised state.new }
{
    let done = parts::compile_part(state, part, last != 0, out);
    *taken = done.taken as u64;
    let answer = done.answer;
    let given = numbers_of(answer);
    *value = given.1;
    given.0
}
