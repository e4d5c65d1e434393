// What is wrong with a cue list: the record that the compiler refuses, where it begins, and why.
#![tactic(auto)]

ghost use Rattle.std.specs.Prelude.{◌≡◌, ◌≢◌, ℕ, ◌≤◌, length};
ghost use Rattle.lbp16.specs.Answer.{rule_number};
ghost use Rattle.packet.specs.Rules.{first};
ghost use Rattle.cue.specs.Records.{record_refusals, record_step};
ghost use Rattle.list_reason.specs.ListReason.{mark_causes, element_causes, element_named, value_causes, causes_of, walked, list_why, FrontGood};
ghost use Rattle.list_reason.specs.Listing.{cause_number, cause_listed, reached_listed, why_listed};

use cue::records;
use lbp16::{Refusal, Rule, space};
use packet::bytes;

// Causes of refusals 22 to 24. A number tells a cause among those of one refusal.
#[derive(Clone, Copy, Debug, PartialEq, Eq)]
pub enum Cause {
    UnknownMark,
    RecordCut,
    AbsentSpace,
    Misaligned,
    PastEnd,
    ReadOnly,
    UnlockCell,
    PacketCount,
    SpareByte,
    TooWide,
}

impl Cause {
    pub fn number(self) -> u32
        ensures { result ≡ cause_number self }
    {
        match self {
            Cause::UnknownMark | Cause::AbsentSpace | Cause::SpareByte => 1,
            Cause::RecordCut | Cause::Misaligned | Cause::TooWide => 2,
            Cause::PastEnd => 3,
            Cause::ReadOnly => 4,
            Cause::UnlockCell => 5,
            Cause::PacketCount => 6,
        }
    }
}

// How far a list is good: records and bytes before the one that is refused, and by which rule.
#[derive(Clone, Copy, Debug, PartialEq, Eq)]
pub struct Stopped {
    pub rule: Rule,
    pub records: usize,
    pub bytes: usize,
}

// A refusal, where the record begins, and the first of the rule's causes that holds.
#[derive(Clone, Copy, Debug, PartialEq, Eq)]
pub struct ListFault {
    pub refusal: Refusal,
    pub offset: u64,
    pub cause: Option<Cause>,
}

// Of 22.
fn mark_cause(rest: &[u8]) -> Option<Cause>
    ensures { cause_listed result ≡ first (mark_causes rest.now) }
{
    let mark = bytes::pair_at(rest, 0);
    let write = mark == records::WRITE_MARK;
    let unknown = !(rest.len() < 2) & !(mark == records::READ_MARK) & !write;
    let cut = rest.len() < records::record_bytes(write);
    if unknown {
        return Some(Cause::UnknownMark);
    }
    if cut {
        return Some(Cause::RecordCut);
    }
    None
}

// Of 23, by what a record or a text's line names.
pub fn element_cause(write: bool, space: u8, a: u16) -> Option<Cause>
    ensures { cause_listed result ≡ first (element_causes (element_named write space a)) }
{
    let row = space::row_of(space);
    let address = a as u32;
    let misaligned = address % row.element != 0;
    let past_end = row.bytes < address + row.element;
    let barred = (address < row.read_only) & write;
    let status = space == 6;
    let unlock = (address == 0x1A) & status;
    let count = (address == 0x0A) & status;
    if space::is_absent(space) {
        return Some(Cause::AbsentSpace);
    }
    if misaligned {
        return Some(Cause::Misaligned);
    }
    if past_end {
        return Some(Cause::PastEnd);
    }
    if barred {
        return Some(Cause::ReadOnly);
    }
    if unlock {
        return Some(Cause::UnlockCell);
    }
    if count {
        return Some(Cause::PacketCount);
    }
    None
}

fn record_cause(rest: &[u8]) -> Option<Cause>
    ensures { cause_listed result ≡ first (element_causes (record_step rest.now)) }
{
    let r = records::record_at(rest);
    element_cause(r.write, r.space, r.address)
}

// Of 24, where it holds: if the spare byte is good, the value is at fault.
fn value_cause(rest: &[u8]) -> Cause
    ensures { (index : ℕ) → first (record_refusals index rest.now) ≡ 24 → cause_number result ≡ first (value_causes rest.now) }
{
    if rest.len() <= 3 {
        return Cause::TooWide;
    }
    if rest[3] != 0 {
        Cause::SpareByte
    } else {
        Cause::TooWide
    }
}

fn cause_of(rest: &[u8], rule: Rule) -> Option<Cause>
    ensures { (index : ℕ) → first (record_refusals index rest.now) ≡ rule_number rule
        → cause_listed result ≡ first (causes_of (rule_number rule) rest.now) }
{
    match rule {
        Rule::Record => mark_cause(rest),
        Rule::RecordElement => record_cause(rest),
        Rule::RecordValue => Some(value_cause(rest)),
        _ => None,
    }
}

// The records of a list, or where it is refused.
pub fn walk(list: &[u8]) -> Result<usize, Stopped>
    ensures { reached_listed (length list.now) result ≡ walked list.now }
{
    let mut rest = list;
    let mut index: usize = 0;
    // A refused record has no length, so that the check must come before the next record is looked for.
    while rest.len() != 0 {
        if let Err(rule) = records::record_refusal(rest, index) {
            return Err(Stopped {
                rule,
                records: index,
                bytes: list.len() - rest.len(),
            });
        }
        let r = records::record_at(rest);
        let n = records::record_bytes(r.write);
        rest = &rest[n..];
        index += 1;
    }
    Ok(index)
}

// Nothing is wrong with a good list.
pub fn why(list: &[u8]) -> Option<ListFault>
    ensures why { why_listed result ≡ list_why list.now }
    ensures caused { 22 ≤ (why_listed result).number → 1 ≤ (why_listed result).cause }
    ensures front { (why_listed result).number ≢ 0 → FrontGood list.now (why_listed result).place (why_listed result).offset }
{
    let Err(stopped) = walk(list) else {
        return None;
    };
    let at = stopped.bytes;
    Some(ListFault {
        refusal: stopped.rule.at(stopped.records as u64),
        offset: at as u64,
        cause: cause_of(&list[at..], stopped.rule),
    })
}
