// What is wrong with a bad line, and with which of its words.
ghost use Rattle.std.specs.Prelude.{◌≡◌, List, ℕ, ◌-◌, ◌≤◌, length, take, drop};
ghost use Rattle.cue_text.specs.Words.{lines_of, words_of};
ghost use Rattle.cue_text.specs.Numbers.{space_of, address_of};
ghost use Rattle.cue_text.specs.Text.{reads, writes, names, at, called, form_of};
ghost use Rattle.cue_text.specs.Fault.{fault, number_in, place_fault, write_fault, defines_name, defined, used_fault, defined_fault};
ghost use Rattle.list_reason.specs.Listing.{cause_number};
ghost use Rattle.cue_text.specs.Fault.{element_fault, form_fault, fault_of, fault_word};
ghost use Rattle.cue_text.specs.Inside.{line_at, word_in, word_numbered, element_fault_numbered};

use crate::line::Shape;
use crate::word::{Word, Words};
use crate::{known, line, number, walk, word};
use list_reason::Cause as Listed;
use text::find;

// The rule that the line breaks, or what a word of it is not.
#[derive(Clone, Copy, Debug, PartialEq, Eq)]
pub enum Cause {
    Form,
    Space,
    Address,
    Value,
    NoName,
    NotDefined,
    Again,
    TooMany,
    Records,
    NoSpace,
    Misaligned,
    PastEnd,
    ReadOnly,
    Unlock,
    PacketCount,
    TooWide,
}

// The word is counted from 0 in its line.
#[derive(Clone, Copy, Debug, PartialEq, Eq)]
pub struct Fault {
    pub cause: Cause,
    pub word: usize,
}

fn told(cause: Cause, word: usize) -> Fault
    ensures { result ≡ fault cause word }
{
    Fault { cause, word }
}

// Where a line begins, and the text's end where there is none.
fn line_place(text: &[u8], line: u64) -> usize
    ensures { (result ≤ length text.now) × (lines_of (drop result text.now) ≡ drop (line - 1) (lines_of text.now)) }
{
    let mut at: usize = 0;
    let mut k: u64 = 1;
    // Where a line begins is known only once the one above it is read.
    while (k < line) & (at < text.len()) {
        at += walk::line_bytes(find::rest(text, at));
        k += 1;
    }
    at
}

fn place_fault(i: usize, space: &[u8]) -> Fault
    requires { i ≤ 2 }
    ensures { result ≡ place_fault i space.now }
{
    if number::space_of(space).is_none() {
        return told(Cause::Space, i);
    }
    told(Cause::Address, i + 1)
}

fn value_fault(space: &[u8], address: &[u8]) -> Fault
    ensures { result ≡ write_fault space.now address.now }
{
    if number::space_of(space).is_none() | number::address_of(address).is_none() {
        return place_fault(1, space);
    }
    told(Cause::Value, 3)
}

fn used_fault(name: &[u8]) -> Fault
    ensures { result ≡ used_fault name.now }
{
    if known::is_name(name) {
        return told(Cause::NotDefined, 1);
    }
    told(Cause::NoName, 1)
}

// Whether the line at a place of the text defines the name.
fn defines_name(text: &[u8], place: usize, name: &[u8]) -> bool
    requires { place ≤ length text.now }
    ensures { result ≡ defines_name name.now (form_of (words_of (line_at text.now place))) }
{
    let rest = find::rest(text, place);
    let w = word::words_of(rest);
    let shape = line::shape_of(word::part(rest, w.first), w.count);
    let Shape::Names = shape else {
        return false;
    };
    find::same(word::part(rest, w.second), name)
}

// Whether a line above defines the name.
fn is_defined(text: &[u8], line: u64, name: &[u8]) -> bool
    ensures { result ≡ defined name.now (take (line - 1) (lines_of text.now)) }
{
    let mut at: usize = 0;
    let mut k: u64 = 1;
    // Where a line begins is known only once the one above it is read.
    while (k < line) & (at < text.len()) {
        if defines_name(text, at, name) {
            return true;
        }
        at += walk::line_bytes(find::rest(text, at));
        k += 1;
    }
    false
}

fn defined_fault(text: &[u8], line: u64, name: &[u8]) -> Fault
    ensures { result ≡ defined_fault (take (line - 1) (lines_of text.now)) name.now }
{
    if !known::is_name(name) {
        return told(Cause::NoName, 1);
    }
    if is_defined(text, line, name) {
        return told(Cause::Again, 1);
    }
    told(Cause::TooMany, 1)
}

// Of 23: of the SPACE, which is the word i, or of the ADDRESS behind it. Causes of 22 and 24 never come here; they are told as their numbers say.
fn listed_fault(cause: Listed, i: usize) -> Fault
    requires { i ≤ 2 }
    ensures { result ≡ element_fault_numbered i (cause_number cause) }
{
    match cause {
        Listed::AbsentSpace | Listed::UnknownMark | Listed::SpareByte => told(Cause::NoSpace, i),
        Listed::Misaligned | Listed::RecordCut | Listed::TooWide => told(Cause::Misaligned, i + 1),
        Listed::PastEnd => told(Cause::PastEnd, i + 1),
        Listed::ReadOnly => told(Cause::ReadOnly, i + 1),
        Listed::UnlockCell => told(Cause::Unlock, i + 1),
        Listed::PacketCount => told(Cause::PacketCount, i + 1),
    }
}

fn element_fault(write: bool, i: usize, space: &[u8], address: &[u8]) -> Fault
    requires { i ≤ 2 }
    ensures { result ≡ element_fault write i (number_in (space_of space.now)) (number_in (address_of address.now)) }
{
    let s = number::space_of(space).unwrap_or(0);
    let a = number::address_of(address).unwrap_or(0);
    match list_reason::element_cause(write, s, a) {
        Some(cause) => listed_fault(cause, i),
        None => told(Cause::PacketCount, i + 1),
    }
}

fn read_fault(number: u32, space: &[u8], address: &[u8]) -> Fault
    ensures { (above : List (List ℕ)) → result ≡ form_fault number above (reads (at space.now address.now)) }
{
    if number == 82 {
        return place_fault(1, space);
    }
    element_fault(false, 1, space, address)
}

fn write_fault(number: u32, space: &[u8], address: &[u8]) -> Fault
    ensures { (above : List (List ℕ)) (v : List ℕ) → result ≡ form_fault number above (writes (at space.now address.now) v) }
{
    match number {
        82 => value_fault(space, address),
        24 => told(Cause::TooWide, 3),
        _ => element_fault(true, 1, space, address),
    }
}

fn named_fault(number: u32, name: &[u8]) -> Fault
    ensures { (above : List (List ℕ)) (v : List ℕ) → result ≡ form_fault number above (writes (called name.now) v) }
{
    match number {
        82 => told(Cause::Value, 2),
        83 => used_fault(name),
        24 => told(Cause::TooWide, 2),
        _ => told(Cause::ReadOnly, 1),
    }
}

fn name_fault(number: u32, line: u64, text: &[u8], rest: &[u8], w: Words) -> Fault
    ensures { result ≡ form_fault number (take (line - 1) (lines_of text.now))
        (names (word_in rest.now w.second) (word_in rest.now w.third) (word_in rest.now w.fourth)) }
{
    let space = word::part(rest, w.third);
    match number {
        82 => place_fault(2, space),
        83 => defined_fault(text, line, word::part(rest, w.second)),
        _ => element_fault(false, 2, space, word::part(rest, w.fourth)),
    }
}

// Of a line that is refused with this number, which may be any.
pub fn fault_of(number: u32, line: u64, text: &[u8]) -> Fault
    ensures { result ≡ fault_of number line text.now }
{
    if number == 21 {
        return told(Cause::Records, 0);
    }
    let rest = find::rest(text, line_place(text, line));
    let w = word::words_of(rest);
    let shape = line::shape_of(word::part(rest, w.first), w.count);
    match shape {
        Shape::Empty => told(Cause::Form, 0),
        Shape::ReadAt => read_fault(
            number,
            word::part(rest, w.second),
            word::part(rest, w.third),
        ),
        Shape::ReadName => used_fault(word::part(rest, w.second)),
        Shape::WriteAt => write_fault(
            number,
            word::part(rest, w.second),
            word::part(rest, w.third),
        ),
        Shape::WriteName => named_fault(number, word::part(rest, w.second)),
        Shape::Names => name_fault(number, line, text, rest, w),
        Shape::Unknown => told(Cause::Form, 0),
    }
}

fn word_numbered(w: Words, k: usize) -> Word
    ensures { result ≡ word_numbered w k }
{
    match k {
        0 => w.first,
        1 => w.second,
        2 => w.third,
        _ => w.fourth,
    }
}

// The word at fault.
pub fn word_of(number: u32, line: u64, text: &[u8]) -> &[u8]
    ensures { result.now ≡ fault_word number line text.now }
{
    let f = fault_of(number, line, text);
    let rest = find::rest(text, line_place(text, line));
    let w = word::words_of(rest);
    word::part(rest, word_numbered(w, f.word))
}
