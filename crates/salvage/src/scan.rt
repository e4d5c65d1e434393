// The scan: where a list's records stand, and what is skipped between them.
ghost use Rattle.std.specs.Prelude.{◌≡◌, []};
ghost use Rattle.salvage.specs.Salvage.{stands, size_at, scan, counted};
ghost use Rattle.salvage.specs.Inside.{gap_of, first_span, tally, Roomy};

use cue::records;

// A stretch of a list by its length: a record kept, or bytes skipped.
// Both kinds have a length, by which the scan goes on, so that it is no field of either.
#[derive(Clone, Copy, Debug, PartialEq, Eq)]
pub(crate) struct Span {
    pub(crate) kept: bool,
    pub(crate) bytes: usize,
}

// What is kept and skipped of a list: records and their bytes, and stretches.
#[derive(Clone, Copy, Debug, PartialEq, Eq)]
pub struct Counts {
    pub records: usize,
    pub bytes: usize,
    pub entries: usize,
}

// Judged as a list's first record, so that 21 plays no part.
#[tactic(auto, using(crate::proofs::SpanLaws::ok_none), unfolding(crate::specs::Salvage::stands))]
fn stands_at(rest: &[u8]) -> bool
    ensures { result ≡ stands rest.now }
{
    records::record_refusal(rest, 0).is_ok()
}

fn size_at(rest: &[u8]) -> usize
    ensures { result ≡ size_at rest.now }
{
    let r = records::record_at(rest);
    records::record_bytes(r.write)
}

// The bytes before the first record, all where there is none.
fn gap_at(rest: &[u8]) -> usize
    ensures { result ≡ gap_of (scan rest.now) }
{
    for n in 0..rest.len() {
        if stands_at(&rest[n..]) {
            return n;
        }
    }
    rest.len()
}

// The first stretch, of no bytes where the list has none.
pub(crate) fn span_at(rest: &[u8]) -> Span
    ensures { result ≡ first_span (scan rest.now) }
{
    if stands_at(rest) {
        return Span {
            kept: true,
            bytes: size_at(rest),
        };
    }
    Span {
        kept: false,
        bytes: gap_at(rest),
    }
}

impl Counts {
    pub fn none() -> Self
        ensures { result ≡ counted [] }
    {
        Counts {
            records: 0,
            bytes: 0,
            entries: 0,
        }
    }
}

// The counts with one stretch more.
pub(crate) fn tallied(c: Counts, s: Span) -> Counts
    requires { Roomy c s }
    ensures { result ≡ tally c s }
{
    if s.kept {
        return Counts {
            records: c.records + 1,
            bytes: c.bytes + s.bytes,
            ..c
        };
    }
    Counts {
        entries: c.entries + 1,
        ..c
    }
}

pub fn count(list: &[u8]) -> Counts
    ensures { result ≡ counted (scan list.now) }
{
    let mut c = Counts::none();
    let mut at: usize = 0;
    // Where the next stretch begins is known once this one is read.
    while at < list.len() {
        let s = span_at(&list[at..]);
        c = tallied(c, s);
        at += s.bytes;
    }
    c
}
