// The check of a whole packet, command by command.
ghost use Rattle.std.specs.Prelude.{◌≡◌, cond, eqb, length};
ghost use Rattle.lbp16.specs.Answer.{Answer, rule_number};
ghost use Rattle.lbp16.specs.Pointer.{pointers_of};
ghost use Rattle.packet.specs.Judge.{judge, refused};
ghost use Rattle.packet.specs.Verdict.{answer_to, verdict_listed};

use crate::command::Which;
use crate::{command, refusal};
use lbp16::pointer::Pointers;
use lbp16::{Refusal, Rule};

// The reply length, or the refusal.
pub type Verdict = Result<u64, Refusal>;

fn copied(lent: &[u32]) -> [u32; 8]
    requires { length lent.now ≡ 8 }
    ensures { result ≡ lent.now }
{
    [
        lent[0], lent[1], lent[2], lent[3], lent[4], lent[5], lent[6], lent[7],
    ]
}

// A refusal, as a verdict.
fn refused(rule: Rule, place: usize) -> Verdict
    ensures { verdict_listed result ≡ Answer.refused (rule_number rule) place }
{
    Err(rule.at(place as u64))
}

// The reply length, or the refusal of the earliest command that is refused, on pointers that are lent as a list. Another count of
// them than eight is refused with 1.
pub fn judge_lent(packet: &[u8], lent: &[u32]) -> Verdict
    ensures { verdict_listed result
        ≡ answer_to (cond (eqb (length lent.now) 8) (judge (pointers_of lent.now) packet.now) (refused 1 0)) }
{
    if lent.len() != 8 {
        return refused(Rule::State, 0);
    }
    let mut pointers = copied(lent);
    let mut unlocked = false;
    let mut reply: usize = 0;
    let mut rest = packet;
    while 0 < rest.len() {
        let place = packet.len() - rest.len();
        let word = command::word_at(rest);
        let reach = if command::for_registers(word) {
            let c = refusal::register_at(rest, word, &pointers, reply, place);
            let found = c.found;
            let which = found.which;
            match which {
                Which::Read => {}
                // Space 0 has no unlock cell.
                Which::Write => {}
                Which::Refused(rule) => return refused(rule, found.place),
            }
            c.reach
        } else {
            let c = refusal::area_at(rest, word, &pointers, unlocked, reply, place);
            let found = c.found;
            let which = found.which;
            match which {
                Which::Read => {}
                Which::Write => {
                    unlocked = command::unlocked_next(rest, unlocked, found.fields, c.reach.used);
                }
                Which::Refused(rule) => return refused(rule, found.place),
            }
            c.reach
        };
        reply += reach.answered;
        let slot = reach.slot;
        pointers[slot] = reach.next;
        let k = reach.bytes;
        rest = &rest[k..];
    }
    Ok(reply as u64)
}

// The same, on pointers by value.
pub fn judge(packet: &[u8], p: Pointers) -> Verdict
    ensures { verdict_listed result ≡ answer_to (judge p packet.now) }
{
    let lent = p.listed();
    judge_lent(packet, &lent)
}
