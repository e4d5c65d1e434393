// Refusals 3 to 12: what is found at one command of a packet. Every function here gets the packet's bytes from that command on.
ghost use Rattle.std.specs.Prelude.{Err, Bool, not, ◌&&◌, cond, List, ◌≡◌, ℕ, ◌*◌, ◌+◌, ◌-◌, ◌%◌, ◌≤◌, length, eqb, ltb};
ghost use Rattle.lbp16.specs.Answer.{ruled};
ghost use Rattle.lbp16.specs.declared.Rule.TheVariants.{WordCut};
ghost use Rattle.lbp16.specs.Word.{fields_of};
ghost use Rattle.lbp16.specs.Pointer.{pointers_of};
ghost use Rattle.lbp16.specs.declared.pointer.Pointers.{Pointers};
ghost use Rattle.packet.specs.Rules.{first, any_step, barred};
ghost use Rattle.packet.specs.Command.{limit, fields_at, kind_of, row_of, header_bytes, address_by, address_used, steps_at};
ghost use Rattle.packet.specs.Command.{out_of_place, refusals, which_of, found, which_listed, found_listed};
ghost use Rattle.packet.specs.Reach.{reach_at};
ghost use Rattle.packet.specs.Inside.{ForRegisters, Ruled, JudgedAt};

use crate::command::{Found, LIMIT, Reach, Which};
use crate::{bytes, command};
use lbp16::space::Row;
use lbp16::word::Fields;
use lbp16::{Rule, pointer, space, word};

// What the rules say of a command, and its reach. The reach stands beside and not in the `Ok`: taken out of it, it costs the check of a
// packet 8 percent of its instructions.
#[derive(Clone, Copy, Debug, PartialEq, Eq)]
pub(crate) struct Ruling {
    pub(crate) rules: Result<(), Rule>,
    pub(crate) reach: Reach,
}

// What is found at a command, and its reach if it is not refused.
#[derive(Clone, Copy, Debug, PartialEq, Eq)]
pub(crate) struct Judged {
    pub(crate) found: Found,
    pub(crate) reach: Reach,
}

// The bytes from the address used to the end of the furthest element.
fn span_by(f: Fields, row: Row) -> u32
    requires { row ≡ row_of f }
    ensures { (result ≡ cond f.increment (f.count * (row_of f).element) (row_of f).element) × (result ≤ 1020) }
{
    let element = row.element;
    if f.increment {
        f.count as u32 * element
    } else {
        element
    }
}

// Whether an address is no multiple of an element's 4 or 2 bytes.
fn misaligned_by(used: u32, element: u32) -> bool
    ensures { result ≡ cond (eqb element 4) (not (eqb (used % 4) 0)) (eqb element 2 && not (eqb (used % 2) 0)) }
{
    if element == 4 {
        used % 4 != 0
    } else {
        (element == 2) & (used % 2 != 0)
    }
}

// Whether so many bytes from the address used pass the end of a space. An address that stands past it is told first, so that the sum
// has 32 bits.
fn passes_end(used: u32, span: u32, bytes: u32) -> bool
    requires { (span ≤ 1020) × (bytes ≤ 65536) }
    ensures { result ≡ ltb bytes (used + span) }
{
    if bytes < used {
        return true;
    }
    bytes < used + span
}

// Refusal 8. Elements rise from the address used, so the last is the furthest.
fn out_of_place(f: Fields, row: Row, used: u32) -> bool
    requires { row ≡ row_of f }
    ensures { (p : Pointers) (rest : List ℕ) → used ≡ address_used p f rest → result ≡ out_of_place p f rest }
{
    misaligned_by(used, row.element)
        | ((f.count != 0) & passes_end(used, span_by(f, row), row.bytes))
}

// Refusal 9. The first element is the lowest.
fn read_only(f: Fields, row: Row, used: u32) -> bool
    requires { row ≡ row_of f }
    ensures { (p : Pointers) (rest : List ℕ) → used ≡ address_used p f rest → result ≡ any_step barred (steps_at p f rest) }
{
    (f.count != 0) & ((used < row.read_only) & f.write)
}

// Refusal 12.
fn passes_limit(reply: usize, more: usize) -> bool
    requires { reply ≤ limit }
    ensures { result ≡ ltb limit (reply + more) }
{
    LIMIT - reply < more
}

// The first of rules 3 to 12 that refuses a plain command to space 0 with its size code and its whole header: 3, 4, 5, 6, 9 and 10
// are never its.
fn register_rule(rest: &[u8], f: Fields, row: Row, r: Reach, reply: usize) -> Result<(), Rule>
    requires { (row ≡ row_of f) × (reply ≤ limit) × ForRegisters f × (header_bytes f ≤ length rest.now) }
    ensures { (p : Pointers) (unlocked : Bool) → r ≡ reach_at p f rest.now → ruled result ≡ first (refusals p unlocked reply f rest.now) }
{
    if f.count == 0 {
        return Err(Rule::CountZero);
    }
    if out_of_place(f, row, r.used) {
        return Err(Rule::Address);
    }
    if rest.len() < r.bytes {
        return Err(Rule::DataCut);
    }
    if passes_limit(reply, r.answered) {
        return Err(Rule::ReplyLength);
    }
    Ok(())
}

// The same of any other command with its whole header.
fn area_rule(
    rest: &[u8],
    f: Fields,
    row: Row,
    r: Reach,
    unlocked: bool,
    reply: usize,
) -> Result<(), Rule>
    requires { (row ≡ row_of f) × (reply ≤ limit) × (header_bytes f ≤ length rest.now) }
    ensures { (p : Pointers) → r ≡ reach_at p f rest.now → ruled result ≡ first (refusals p unlocked reply f rest.now) }
{
    if f.info & f.write {
        return Err(Rule::InfoWrite);
    }
    if space::is_absent(f.space) {
        return Err(Rule::Space);
    }
    if f.size != row.size {
        return Err(Rule::ElementSize);
    }
    if f.count == 0 {
        return Err(Rule::CountZero);
    }
    if out_of_place(f, row, r.used) {
        return Err(Rule::Address);
    }
    if read_only(f, row, r.used) {
        return Err(Rule::ReadOnly);
    }
    if f.write & row.locked & !unlocked {
        return Err(Rule::Locked);
    }
    if rest.len() < r.bytes {
        return Err(Rule::DataCut);
    }
    if passes_limit(reply, r.answered) {
        return Err(Rule::ReplyLength);
    }
    Ok(())
}

// The address used by a command whose header is whole.
fn address_in(rest: &[u8], f: Fields, pointer: u32) -> u32
    requires { header_bytes f ≤ length rest.now }
    ensures { result ≡ address_by f rest.now pointer }
{
    if f.address {
        bytes::pair(rest, 2) as u32
    } else {
        pointer
    }
}

// Refusal 3.
fn cut_off() -> Ruling
    ensures { result.rules ≡ Err WordCut }
{
    Ruling {
        rules: Err(Rule::WordCut),
        reach: Reach {
            slot: 0,
            used: 0,
            at: 0,
            element: 0,
            bytes: 0,
            answered: 0,
            next: 0,
        },
    }
}

fn register_ruling(rest: &[u8], f: Fields, pointers: &[u32], reply: usize) -> Ruling
    requires { (reply ≤ limit) × ForRegisters f × (header_bytes f ≤ length rest.now) }
    ensures { (unlocked : Bool) → Ruled (pointers_of pointers.now) unlocked reply f rest.now result }
{
    let row = space::row_of(0);
    let used = address_in(rest, f, pointer::pointer_in(pointers, 0));
    let reach = command::reach_by(f, row, 0, used);
    let rules = register_rule(rest, f, row, reach, reply);
    Ruling { rules, reach }
}

fn area_ruling(rest: &[u8], f: Fields, pointers: &[u32], unlocked: bool, reply: usize) -> Ruling
    requires { (reply ≤ limit) × (header_bytes f ≤ length rest.now) }
    ensures { Ruled (pointers_of pointers.now) unlocked reply f rest.now result }
{
    let row = command::row_of(f);
    let slot = pointer::slot_of(command::is_info(f), f.space);
    let used = address_in(rest, f, pointer::pointer_in(pointers, slot));
    let reach = command::reach_by(f, row, slot, used);
    let rules = area_rule(rest, f, row, reach, unlocked, reply);
    Ruling { rules, reach }
}

// Which of read, write or refusal a command is, by what the rules say of it.
fn which_of(rules: Result<(), Rule>, f: Fields) -> Which
    ensures { (place : ℕ) → which_listed result place ≡ which_of (ruled rules) place (kind_of f) }
{
    if let Err(rule) = rules {
        return Which::Refused(rule);
    }
    command::read_or_write(f)
}

// What is found at a command, by what is ruled of it.
fn judged_by(f: Fields, place: usize, ruling: Ruling) -> Judged
    ensures { (p : Pointers) (unlocked : Bool) (reply : ℕ) (rest : List ℕ) → f ≡ fields_at rest
        → Ruled p unlocked reply f rest ruling → JudgedAt p unlocked reply place rest result }
{
    let found = Found {
        fields: f,
        place,
        which: which_of(ruling.rules, f),
    };
    let reach = ruling.reach;
    Judged { found, reach }
}

// What is found at a plain command to space 0 with its size code, by its word: on these pointers, and after so many bytes of reply.
// Such commands have a way of their own, on which the compiler knows the table's line.
pub(crate) fn register_at(
    rest: &[u8],
    word: u16,
    pointers: &[u32],
    reply: usize,
    place: usize,
) -> Judged
    requires { (fields_of word ≡ fields_at rest.now) × ForRegisters (fields_of word) × (reply ≤ limit) }
    ensures { (unlocked : Bool) → JudgedAt (pointers_of pointers.now) unlocked reply place rest.now result }
{
    let f = word::fields_of(word);
    if rest.len() < command::header_bytes(f) {
        return judged_by(f, place, cut_off());
    }
    judged_by(f, place, register_ruling(rest, f, pointers, reply))
}

// What is found at any other command, with the unlock so.
pub(crate) fn area_at(
    rest: &[u8],
    word: u16,
    pointers: &[u32],
    unlocked: bool,
    reply: usize,
    place: usize,
) -> Judged
    requires { (fields_of word ≡ fields_at rest.now) × (reply ≤ limit) }
    ensures { JudgedAt (pointers_of pointers.now) unlocked reply place rest.now result }
{
    let f = word::fields_of(word);
    if rest.len() < command::header_bytes(f) {
        return judged_by(f, place, cut_off());
    }
    judged_by(f, place, area_ruling(rest, f, pointers, unlocked, reply))
}

// The bytes of a reply of which so many are left.
fn reply_before(left: usize) -> usize
    ensures { (result ≡ limit - left) × (result ≤ limit) }
{
    if left < LIMIT { LIMIT - left } else { 0 }
}

// What is found at the command at the front of `rest`: on these pointers, with the unlock so, and so many bytes of the reply left.
pub fn found_at(rest: &[u8], pointers: &[u32], unlocked: bool, left: usize, place: usize) -> Found
    ensures { found_listed result ≡ found (pointers_of pointers.now) unlocked (limit - left) place rest.now }
{
    let word = command::word_at(rest);
    let reply = reply_before(left);
    let judged = area_at(rest, word, pointers, unlocked, reply, place);
    let found = judged.found;
    found
}
