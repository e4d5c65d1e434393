// The check of one packet on a card's state. Nothing is changed.
ghost use Rattle.std.specs.Prelude.{◌≡◌};
ghost use Rattle.packet.specs.Verdict.{answer_to, verdict_listed};
ghost use Rattle.card.specs.Run.{bad_state, checked, checked_lent};

use lbp16::Rule;
use lbp16::pointer::Pointers;
use packet::judge::Verdict;
use packet::{command, judge};

pub const STORE_BYTES: usize = 65728;

// Refusal 1, of store and pointers.
pub fn bad_state(store: &[u8], p: Pointers) -> bool
    ensures { result ≡ bad_state store.now p }
{
    (store.len() != STORE_BYTES) | p.above_size()
}

// The reply length that a run of the packet would answer, or its refusal, on pointers that are lent as a list: those of spaces 0, 2,
// 6 and 7, then those of their info areas. Another count of them than eight is refused with 1.
pub fn check_lent(packet: &[u8], store: &[u8], lent: &[u32]) -> Verdict
    ensures { verdict_listed result ≡ answer_to (checked_lent packet.now store.now lent.now) }
{
    if lent.len() != 8 {
        return Err(Rule::State.at(0));
    }
    if bad_state(store, Pointers::from_lent(lent)) {
        return Err(Rule::State.at(0));
    }
    if command::LIMIT < packet.len() {
        return Err(Rule::PacketLength.at(0));
    }
    judge::judge_lent(packet, lent)
}

// The same, on pointers by value.
pub fn check(packet: &[u8], store: &[u8], p: Pointers) -> Verdict
    ensures { verdict_listed result ≡ answer_to (checked packet.now store.now p) }
{
    let lent = p.listed();
    check_lent(packet, store, &lent)
}
