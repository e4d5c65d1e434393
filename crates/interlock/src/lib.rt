// Cells that no packet may write: check, run, burst and list with a guard.
#![tactic(auto)]

mod ranges;
mod walk;

ghost use Rattle.std.specs.Prelude.{◌≡◌, [], ◌∷◌, ℕ, ◌≤◌};
ghost use Rattle.lbp16.specs.Answer.{Answer};
ghost use Rattle.packet.specs.Counts.{elements_moved};
ghost use Rattle.packet.specs.Verdict.{answer_to, verdict_listed};
ghost use Rattle.card.specs.Run.{checked_lent, ran_lent, most_elements};
ghost use Rattle.spi.specs.Spi.{burst_left, most_in_burst};
ghost use Rattle.interlock.specs.Guard.{soundness, protected};
ghost use Rattle.interlock.specs.Guarded.{guarded_check, guarded_run, promised, guarded_burst, guarded_list};
ghost use Rattle.interlock.specs.Inside.{instead_of};

use card::run::RanLent;
use card::{check, run};
use cue::plan;
use lbp16::Rule;
use packet::command;
use packet::judge::Verdict;

// The number of a guard's ranges, or 70 and the index of the earliest pair at fault.
pub fn guard(guard: &[u32]) -> Verdict
    ensures { verdict_listed result ≡ soundness guard.now }
{
    ranges::soundness(guard)
}

// The check's refusal, or 71 at this place where it accepts.
fn held_back(packet: &[u8], store: &[u8], pointers: &[u32], place: usize) -> Verdict
    ensures { verdict_listed result ≡ instead_of (answer_to (checked_lent packet.now store.now pointers.now)) place }
{
    check::check_lent(packet, store, pointers)?;
    Err(Rule::Protected.at(place as u64))
}

// What the plain check answers, but for a packet that would be accepted and would write a protected byte.
pub fn check(packet: &[u8], store: &[u8], pointers: &[u32], guard: &[u32]) -> Verdict
    ensures { verdict_listed result
        ≡ answer_to (guarded_check guard.now packet.now store.now pointers.now) }
{
    ranges::soundness(guard)?;
    match walk::protected_place(packet, pointers, guard) {
        None => check::check_lent(packet, store, pointers),
        Some(place) => held_back(packet, store, pointers, place),
    }
}

// What the plain run answers and leaves, but for such a packet: that is refused, and nothing changes. The packet is gone through first, so
// that the plain run is called once where no protected byte is written.
pub fn run(
    packet: &[u8],
    store: &mut [u8],
    pointers: &mut [u32],
    reply: &mut [u8],
    guard: &[u32],
) -> RanLent
    ensures ran { ran_lent result store.new pointers.new reply.new
        ≡ guarded_run guard.now packet.now store.old pointers.old reply.old }
    ensures summed { result.elements ≡ elements_moved (verdict_listed result.answer) packet.now }
    ensures bounded { result.elements ≤ most_elements }
{
    let sound = ranges::soundness(guard);
    let Ok(_) = sound else {
        return RanLent {
            answer: sound,
            elements: 0,
        };
    };
    let Some(place) = walk::protected_place(packet, pointers, guard) else {
        return run::run_lent(packet, store, pointers, reply);
    };
    if reply.len() != command::LIMIT {
        return RanLent {
            answer: Err(Rule::State.at(0)),
            elements: 0,
        };
    }
    RanLent {
        answer: held_back(packet, store, pointers, place),
        elements: 0,
    }
}

// Whether a burst that writes promises an element with a protected byte.
fn promises_protected(words: &[u32], guard: &[u32]) -> bool
    ensures { result ≡ protected guard.now (promised words.now) }
{
    if words.len() == 0 {
        return false;
    }
    let h = spi::header_of(words[0]);
    if (h.command != spi::WRITE) | (h.count == 0) {
        return false;
    }
    ranges::touches(guard, h.address as u64, walk::span(h.increment, h.count, 4))
}

// What the plain burst answers and leaves, but for one that would be accepted and promises to write a protected byte.
pub fn burst(words: &[u32], store: &mut [u8], answer: &mut [u32], guard: &[u32]) -> Verdict
    ensures left { burst_left result store.new answer.new
        ≡ guarded_burst guard.now words.now store.old answer.old }
    ensures bounded { (n : ℕ) → verdict_listed result ≡ Answer.accepted (n ∷ []) → n ≤ most_in_burst }
{
    ranges::soundness(guard)?;
    if !promises_protected(words, guard) {
        return spi::burst(words, store, answer);
    }
    match spi::refusal_of(words, store, answer) {
        Ok(()) => Err(Rule::Protected.at(0)),
        Err(rule) => Err(rule.at(0)),
    }
}

// The number of a cue list's records, or the compiler's refusal, or 71 and the first record that writes a protected byte.
pub fn list(list: &[u8], guard: &[u32]) -> Verdict
    ensures { verdict_listed result ≡ guarded_list guard.now list.now }
{
    ranges::soundness(guard)?;
    plan::plan(list)?;
    walk::records_held(list, guard)
}
