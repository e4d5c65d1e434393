// What is wrong at a record.
ghost use Rattle.std.specs.Prelude.{◌≡◌, take, Some};
ghost use Rattle.list_reason.specs.Listing.{why_listed};
ghost use Rattle.text.specs.Room.{filled, put_at};
ghost use Rattle.cuewhy_output.specs.Wording.{mark_text, cut_text, named_text, element_text, wide_text, bad_text, fault_text};

use crate::shown;
use cue::records::Record;
use lbp16::space;
use list_reason::ListFault;
use text::{least, line, number, pick};

// The bytes of a mark, as far as they are there.
fn mark(rest: &[u8]) -> &[u8]
    ensures { result.now ≡ take 2 rest.now }
{
    &rest[..least(2, rest.len())]
}

fn put_mark(out: &mut [u8], at: usize, place: u64, rest: &[u8]) -> usize
    ensures { filled result out.new ≡ put_at (mark_text place rest.now) at out.old }
{
    let at = text::put(out, at, b"mark");
    let at = number::bytes(out, at, mark(rest));
    let at = text::put(out, at, b": neither RD nor WR");
    text::put(
        out,
        at,
        pick(
            place == 0,
            b"",
            b"; the record before may be one of the wrong length",
        ),
    )
}

fn put_cut(out: &mut [u8], at: usize, r: Record, rest: &[u8]) -> usize
    ensures { filled result out.new ≡ put_at (cut_text r rest.now) at out.old }
{
    if rest.len() < 2 {
        return text::put(out, at, b"record: cut off, 1 byte left of 6 or 10");
    }
    let kind = pick(r.write, b"write: cut off, ", b"read: cut off, ");
    let at = line::numbered(out, at, kind, rest.len() as u64);
    text::put(
        out,
        at,
        pick(r.write, b" bytes left of 10", b" bytes left of 6"),
    )
}

// Causes that are one text each.
fn put_named(out: &mut [u8], at: usize, r: Record, cause: u32) -> usize
    ensures { filled result out.new ≡ put_at (named_text r cause) at out.old }
{
    let t = pick(
        cause == 5,
        b"the unlock cell, which no list may name",
        b"the packet count, which no list may name",
    );
    let only = pick(
        r.space == 2,
        b"read-only below 0x20",
        b"the space is read-only",
    );
    let t = pick(cause == 4, only, t);
    text::put(out, at, pick(cause == 1, b"the card has no such space", t))
}

fn put_element(out: &mut [u8], at: usize, r: Record, cause: u32) -> usize
    ensures { filled result out.new ≡ put_at (element_text r cause) at out.old }
{
    let row = space::row_of(r.space);
    if cause == 2 {
        return line::numbered(out, at, b"address not a multiple of ", row.element as u64);
    }
    if cause == 3 {
        let at = line::numbered(out, at, b"past the end: the space has ", row.bytes as u64);
        return text::put(out, at, b" bytes");
    }
    put_named(out, at, r, cause)
}

fn put_wide(out: &mut [u8], at: usize, cause: u32) -> usize
    ensures { filled result out.new ≡ put_at (wide_text cause) at out.old }
{
    text::put(
        out,
        at,
        pick(cause == 1, b"spare byte not 0", b"value above 0xFFFF"),
    )
}

// A cause's number among those of its refusal, which is what is known of it here.
fn cause_number(w: ListFault) -> u32
    ensures { result ≡ (why_listed (Some w)).cause }
{
    match w.cause {
        Some(cause) => cause.number(),
        None => 0,
    }
}

// Of 23 and 24.
fn put_bad(out: &mut [u8], at: usize, w: ListFault, r: Record, rest: &[u8]) -> usize
    ensures { filled result out.new ≡ put_at (bad_text (why_listed (Some w)) r rest.now) at out.old }
{
    let at = shown::put_record(out, at, r, rest);
    let at = text::put(out, at, b": ");
    let cause = cause_number(w);
    if w.refusal.rule.number() == 23 {
        return put_element(out, at, r, cause);
    }
    put_wide(out, at, cause)
}

pub(crate) fn put_fault(out: &mut [u8], at: usize, w: ListFault, r: Record, rest: &[u8]) -> usize
    ensures { filled result out.new ≡ put_at (fault_text (why_listed (Some w)) r rest.now) at out.old }
{
    match w.refusal.rule.number() {
        21 => text::put(out, at, b"a list has at most 100,000 records"),
        22 if cause_number(w) == 1 => put_mark(out, at, w.refusal.place, rest),
        22 => put_cut(out, at, r, rest),
        _ => put_bad(out, at, w, r, rest),
    }
}
