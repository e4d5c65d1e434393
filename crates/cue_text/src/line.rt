// What a line says.
ghost use Rattle.std.specs.Prelude.{◌≡◌, List, cond, ℕ, ◌≤◌, length};
ghost use Rattle.lbp16.specs.Answer.{rule_number, ruled};
ghost use Rattle.packet.specs.Rules.{first};
ghost use Rattle.cue.specs.Records.{record_refusals, read_mark, write_mark};
ghost use Rattle.cue_text.specs.Text.{Name, reads, writes, names, at, called, bytes_of_cue, record_meaning, read_meaning, write_meaning};
ghost use Rattle.cue_text.specs.Text.{form_meaning, line_meaning};
ghost use Rattle.cue_text.specs.Inside.{read_shape, write_shape, name_shape, shape_of, place_in, word_in, ten_bytes, meaning_of};
ghost use Rattle.cue_text.specs.Inside.{names_at, line_at, LineHere};

use crate::known::Located;
use crate::word::Words;
use crate::{known, number, word};
use cue::records;
use lbp16::Rule;
use text::find;

// A record as a line says it. A read has the value 0.
#[derive(Clone, Copy, Debug, PartialEq, Eq)]
pub struct Cue {
    pub write: bool,
    pub space: u8,
    pub address: u16,
    pub value: u32,
}

// The forms of a line.
#[derive(Clone, Copy, Debug, PartialEq, Eq)]
pub(crate) enum Shape {
    Empty,
    ReadAt,
    ReadName,
    WriteAt,
    WriteName,
    Names,
    Unknown,
}

// A name is defined by the number that it is kept as.
#[derive(Clone, Copy, Debug, PartialEq, Eq)]
pub(crate) enum Said {
    Nothing,
    Defines(usize),
    Does(Cue),
}

fn read_shape(count: usize) -> Shape
    ensures { result ≡ read_shape count }
{
    if count == 2 {
        return Shape::ReadName;
    }
    if count == 3 {
        return Shape::ReadAt;
    }
    Shape::Unknown
}

fn write_shape(count: usize) -> Shape
    ensures { result ≡ write_shape count }
{
    if count == 3 {
        return Shape::WriteName;
    }
    if count == 4 {
        return Shape::WriteAt;
    }
    Shape::Unknown
}

fn name_shape(count: usize) -> Shape
    ensures { result ≡ name_shape count }
{
    if count == 4 {
        return Shape::Names;
    }
    Shape::Unknown
}

// By the first word and the number of words.
pub(crate) fn shape_of(first: &[u8], count: usize) -> Shape
    ensures { result ≡ shape_of first.now count }
{
    if count == 0 {
        return Shape::Empty;
    }
    if find::same(first, b"read") {
        return read_shape(count);
    }
    if find::same(first, b"write") {
        return write_shape(count);
    }
    if find::same(first, b"name") {
        return name_shape(count);
    }
    Shape::Unknown
}

fn mark_of(write: bool) -> u16
    ensures { result ≡ cond write write_mark read_mark }
{
    if write {
        records::WRITE_MARK
    } else {
        records::READ_MARK
    }
}

// A record's bytes. Those of a read end before its value.
pub(crate) fn bytes_of(c: Cue) -> [u8; 10]
    ensures { result ≡ ten_bytes c }
{
    let mark = mark_of(c.write);
    let a = c.address;
    let v = c.value;
    [
        (mark % 256) as u8,
        (mark / 256 % 256) as u8,
        c.space,
        0,
        (a % 256) as u8,
        (a / 256 % 256) as u8,
        (v % 256) as u8,
        (v / 256 % 256) as u8,
        (v / 256 / 256 % 256) as u8,
        (v / 256 / 256 / 256 % 256) as u8,
    ]
}

// Refusals 21 to 24 of a record.
fn ruling_of(c: Cue, index: usize) -> Result<(), Rule>
    ensures { ruled result ≡ first (record_refusals index (bytes_of_cue c)) }
{
    let b = bytes_of(c);
    let n = records::record_bytes(c.write);
    records::record_refusal(&b[..n], index)
}

fn record_said(c: Cue, index: usize) -> Result<Said, Rule>
    ensures { (text : List ℕ) → meaning_of text result ≡ record_meaning index c }
{
    match ruling_of(c, index) {
        Ok(()) => Ok(Said::Does(c)),
        Err(rule) => Err(rule),
    }
}

// By `rule` a place is refused that was not found.
fn read_said(rule: Rule, p: Option<Located>, index: usize) -> Result<Said, Rule>
    ensures { (text : List ℕ) → meaning_of text result ≡ read_meaning (rule_number rule) (place_in p) index }
{
    let Some(p) = p else {
        return Err(rule);
    };
    let c = Cue {
        write: false,
        space: p.space,
        address: p.address,
        value: 0,
    };
    record_said(c, index)
}

fn write_said(rule: Rule, p: Option<Located>, v: Option<u32>, index: usize) -> Result<Said, Rule>
    ensures { (text : List ℕ) → meaning_of text result ≡ write_meaning (rule_number rule) (place_in p) v index }
{
    let Some(value) = v else {
        return Err(Rule::TextNumber);
    };
    let Some(p) = p else {
        return Err(rule);
    };
    let c = Cue {
        write: true,
        space: p.space,
        address: p.address,
        value,
    };
    record_said(c, index)
}

fn read_at(rest: &[u8], w: Words, index: usize) -> Result<Said, Rule>
    ensures { (text : List ℕ) (known : List Name) → meaning_of text result
        ≡ form_meaning known index (reads (at (word_in rest.now w.second) (word_in rest.now w.third))) }
{
    let p = known::place_by(word::part(rest, w.second), word::part(rest, w.third));
    read_said(Rule::TextNumber, p, index)
}

fn read_name(
    text: &[u8],
    table: &[usize],
    rest: &[u8],
    w: Words,
    index: usize,
) -> Result<Said, Rule>
    ensures { meaning_of text.now result
        ≡ form_meaning (names_at text.now table.now) index (reads (called (word_in rest.now w.second))) }
{
    let p = known::place_of(text, table, word::part(rest, w.second));
    read_said(Rule::TextName, p, index)
}

fn write_at(rest: &[u8], w: Words, index: usize) -> Result<Said, Rule>
    ensures { (text : List ℕ) (known : List Name) → meaning_of text result
        ≡ form_meaning known index
        (writes (at (word_in rest.now w.second) (word_in rest.now w.third)) (word_in rest.now w.fourth)) }
{
    let p = known::place_by(word::part(rest, w.second), word::part(rest, w.third));
    let v = number::value_of(word::part(rest, w.fourth));
    write_said(Rule::TextNumber, p, v, index)
}

fn write_name(
    text: &[u8],
    table: &[usize],
    rest: &[u8],
    w: Words,
    index: usize,
) -> Result<Said, Rule>
    ensures { meaning_of text.now result
        ≡ form_meaning (names_at text.now table.now) index
        (writes (called (word_in rest.now w.second)) (word_in rest.now w.third)) }
{
    let p = known::place_of(text, table, word::part(rest, w.second));
    let v = number::value_of(word::part(rest, w.third));
    write_said(Rule::TextName, p, v, index)
}

// A definition is held against refusal 23 as a read.
fn name_at(text: &[u8], place: usize, table: &[usize], rest: &[u8], w: Words) -> Result<Said, Rule>
    requires { LineHere text.now place rest.now w }
    ensures { (index : ℕ) → meaning_of text.now result
        ≡ form_meaning (names_at text.now table.now) index
        (names (word_in rest.now w.second) (word_in rest.now w.third) (word_in rest.now w.fourth)) }
{
    let Some(p) = known::place_by(word::part(rest, w.third), word::part(rest, w.fourth)) else {
        return Err(Rule::TextNumber);
    };
    let name = word::part(rest, w.second);
    if known::bad_name(text, table, name) {
        return Err(Rule::TextName);
    }
    let c = Cue {
        write: false,
        space: p.space,
        address: p.address,
        value: 0,
    };
    match ruling_of(c, 0) {
        Ok(()) => Ok(Said::Defines(known::kept(place + w.second.from, name.len(), p))),
        Err(rule) => Err(rule),
    }
}

// The line at a place of the text, with the names that are known above it and so many records above it.
pub(crate) fn said_at(
    text: &[u8],
    place: usize,
    table: &[usize],
    index: usize,
) -> Result<Said, Rule>
    requires { place ≤ length text.now }
    ensures { meaning_of text.now result
        ≡ line_meaning (names_at text.now table.now) index (line_at text.now place) }
{
    let rest = find::rest(text, place);
    let w = word::words_of(rest);
    let shape = shape_of(word::part(rest, w.first), w.count);
    match shape {
        Shape::Empty => Ok(Said::Nothing),
        Shape::ReadAt => read_at(rest, w, index),
        Shape::ReadName => read_name(text, table, rest, w, index),
        Shape::WriteAt => write_at(rest, w, index),
        Shape::WriteName => write_name(text, table, rest, w, index),
        Shape::Names => name_at(text, place, table, rest, w),
        Shape::Unknown => Err(Rule::TextForm),
    }
}
