// A call that takes the state apart and puts it together again.
ghost use Rattle.std.specs.Prelude.{◌≡◌, ◌≤◌, ◌<◌, length, MatchOption, Err};
ghost use Rattle.lbp16.specs.Answer.{rule_number};
ghost use Rattle.lbp16.specs.declared.Rule.TheVariants.{State};
ghost use Rattle.packet.specs.Verdict.{verdict_listed};
ghost use Rattle.parts.specs.Taking.{answer_by};
ghost use Rattle.parts.specs.State.{standing_of};
ghost use Rattle.cue.specs.Output.{frame_room};
ghost use Rattle.parts.specs.Parts.{part_of, part_left};
ghost use Rattle.parts.specs.Inside.{Ranged};

use crate::state::Kept;
use crate::{Part, STATE_BYTES, layout, single, state, take};
use lbp16::Rule;

// The fault with this number, none while bytes are taken or behind the list's end.
fn fault_of(stands: u32) -> Option<Rule>
    requires known { 1 < stands → 21 ≤ stands }
    requires within { stands ≤ 24 }
    ensures { MatchOption result (stands ≤ 1) (λ rule. (rule_number rule ≡ stands) × (1 < stands)) }
{
    match stands {
        21 => Some(Rule::ListLength),
        22 => Some(Rule::Record),
        23 => Some(Rule::RecordElement),
        24 => Some(Rule::RecordValue),
        _ => None,
    }
}

// A fault that stands is refused again.
fn answered(k: Kept, written: usize, taken: usize) -> Part
    requires { Ranged k }
    ensures { (verdict_listed result.answer ≡ answer_by (standing_of k.stands) k.index written) × (result.taken ≡ taken) }
{
    let answer = match fault_of(k.stands) {
        Some(rule) => Err(rule.at(k.index as u64)),
        None => Ok(written as u64),
    };
    Part { answer, taken }
}

fn bad_state() -> Part
    ensures { result ≡ record { answer = Err (record { rule = State; place = 0 }); taken = 0 } }
{
    Part {
        answer: Err(Rule::State.at(0)),
        taken: 0,
    }
}

pub(crate) fn called(state: &mut [u8], part: &[u8], last: bool, out: &mut [u8]) -> Part
    requires { frame_room ≤ length out.old }
    ensures { part_left result.answer result.taken state.new out.new ≡ part_of state.old part.now last out.old }
{
    if state.len() != STATE_BYTES {
        return bad_state();
    }
    let kept = state::load(state);
    if state::bad(kept) {
        return bad_state();
    }
    if kept.stands != 0 {
        return answered(kept, 0, 0);
    }
    if single::completed(kept, part, last, state) {
        return Part {
            answer: Ok(0),
            taken: 1,
        };
    }
    let stop = take::part_taken(kept, part, last, &mut state[layout::OPEN..], out);
    let after = stop.kept;
    state::save(after, state);
    answered(after, stop.written, stop.taken)
}
