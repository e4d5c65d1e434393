// What the program that takes a list as it comes writes for each part of it.
#![tactic(auto)]

ghost use Rattle.std.specs.Prelude.{cond, eqb, ◌≡◌, ◌+◌, ◌*◌, ◌≤◌, length, IfSome};
ghost use Rattle.cuepipe_output.specs.Feed.{fed_from, fed_of, fed_left, left_by};
ghost use Rattle.cuepipe_output.specs.Inside.{call_of, call_left};

use cue::frame;
use text::line;

// So many bytes are to be written; whether another part may follow.
#[derive(Clone, Copy, Debug, PartialEq, Eq)]
pub struct Fed {
    pub bytes: usize,
    pub more: bool,
}

// The place behind what a call wrote, and where another call may follow the bytes that it took.
#[derive(Clone, Copy, Debug, PartialEq, Eq)]
struct Called {
    next: usize,
    taken: Option<usize>,
}

// A call that takes nothing is the last.
fn some_taken(taken: usize) -> Option<usize>
    ensures { result ≡ cond (eqb taken 0) None (Some taken) }
{
    if taken == 0 { None } else { Some(taken) }
}

fn call(state: &mut [u8], part: &[u8], last: bool, out: &mut [u8], at: usize) -> Called
    ensures out_after { call_left result state.new out.new
        ≡ call_of state.old part.now last at out.old }
    ensures within { IfSome result.taken (λ k. k ≤ length part.now) × (result.next ≤ at + 1476) }
{
    let mut packet = [0u8; frame::ROOM];
    let done = parts::compile_part(state, part, last, &mut packet);
    let answer = done.answer;
    match answer {
        Ok(bytes) => {
            let n = bytes as usize;
            Called {
                next: text::put(out, at, &packet[..n]),
                taken: some_taken(done.taken),
            }
        }
        Err(r) => Called {
            next: line::refused(out, at, r.rule.number() as u64, r.place),
            taken: None,
        },
    }
}

fn take_all(state: &mut [u8], part: &[u8], out: &mut [u8]) -> Fed
    ensures out_after { left_by result.bytes result.more state.new out.new
        ≡ fed_left (fed_from (length part.now) state.old part.now) 0 out.old }
    ensures bounded { result.bytes ≤ 1476 * length part.now }
{
    let mut rest = part;
    let mut next: usize = 0;
    // How far a turn goes is what the call took.
    while 0 < rest.len() {
        let c = call(state, rest, false, out, next);
        next = c.next;
        let Some(k) = c.taken else {
            return Fed {
                bytes: next,
                more: false,
            };
        };
        rest = &rest[k..];
    }
    Fed {
        bytes: next,
        more: true,
    }
}

// Takes a part; one of no bytes is the list's end. The bytes to write stand at the front of `out`, cut off at its end: where `out` has more
// than `bounded` allows, nothing is cut off.
pub fn feed(state: &mut [u8], part: &[u8], out: &mut [u8]) -> Fed
    ensures fed { left_by result.bytes result.more state.new out.new
        ≡ fed_left (fed_of state.old part.now) 0 out.old }
    ensures bounded { result.bytes ≤ 1476 * (1 + length part.now) }
{
    if part.len() == 0 {
        let c = call(state, part, true, out, 0);
        return Fed {
            bytes: c.next,
            more: false,
        };
    }
    take_all(state, part, out)
}
