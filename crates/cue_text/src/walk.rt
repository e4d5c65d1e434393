// A text's lines, one by one.
ghost use Rattle.std.specs.Prelude.{◌≡◌, List, ◌+◌, ◌<◌, length};
ghost use Rattle.std.proofs.lemmas.List.Edits.{sets};
ghost use Rattle.cue_text.specs.Text.{most_names, bytes_of_cue};
ghost use Rattle.cue_text.specs.Assembled.{assembled, cues, list_of, text_listed};
ghost use Rattle.cue_text.specs.declared.line.Cue.{Cue};
ghost use Rattle.cue_text.specs.Inside.{line_bytes, tallied, table_after, room_after, Roomy, answered};

use crate::line::{Cue, Said};
use crate::{TextAnswer, Written, known, line};
use cue::records;
use text::find;

// Lines, names, the list's bytes and records so far.
#[derive(Clone, Copy)]
pub(crate) struct Tally {
    pub(crate) lines: usize,
    pub(crate) names: usize,
    pub(crate) bytes: usize,
    pub(crate) records: usize,
}

// What does not fit is cut off at the room's end.
fn put_cue(out: &mut [u8], at: usize, c: Cue)
    ensures { out.new ≡ sets out.old at (bytes_of_cue c) }
{
    let b = line::bytes_of(c);
    let n = records::record_bytes(c.write);
    text::put(out, at, &b[..n]);
}

// One line more, by what it says.
fn turned(t: Tally, said: Said, table: &mut [usize], out: &mut [u8]) -> Tally
    requires { Roomy t said table.old }
    ensures { (result ≡ tallied t said) × (table.new ≡ table_after said t.names table.old)
        × (out.new ≡ room_after said t.bytes out.old) }
{
    let lines = t.lines + 1;
    match said {
        Said::Nothing => Tally { lines, ..t },
        Said::Defines(place) => {
            let free = t.names;
            table[free] = place;
            Tally {
                lines,
                names: free + 1,
                ..t
            }
        }
        Said::Does(c) => {
            put_cue(out, t.bytes, c);
            Tally {
                lines,
                bytes: t.bytes + records::record_bytes(c.write),
                records: t.records + 1,
                ..t
            }
        }
    }
}

// The bytes of the first line, with its newline.
pub(crate) fn line_bytes(rest: &[u8]) -> usize
    ensures { result ≡ line_bytes rest.now }
{
    let n = find::bytes_before(rest, b'\n');
    if n < rest.len() {
        return n + 1;
    }
    n
}

// Every line is judged, and its record put behind the last. What stands in the room after a refusal is left open.
fn walk_with(text: &[u8], table: &mut [usize], out: &mut [u8]) -> TextAnswer
    requires { length table.old ≡ most_names }
    ensures answer { text_listed result ≡ answered (assembled text.now) }
    ensures out_after { (cs : List Cue) → assembled text.now ≡ cues cs
        → out.new ≡ sets out.old 0 (list_of cs) }
{
    let mut t = Tally {
        lines: 0,
        names: 0,
        bytes: 0,
        records: 0,
    };
    let mut at: usize = 0;
    // What a line says depends on the names above it, and their places in the text.
    while at < text.len() {
        let n = t.names;
        match line::said_at(text, at, &table[..n], t.records) {
            Ok(said) => t = turned(t, said, table, out),
            Err(rule) => return Err(rule.at((t.lines + 1) as u64)),
        }
        at += line_bytes(find::rest(text, at));
    }
    Ok(Written {
        bytes: t.bytes,
        count: t.records,
    })
}

pub(crate) fn walk(text: &[u8], out: &mut [u8]) -> TextAnswer
    ensures answer { text_listed result ≡ answered (assembled text.now) }
    ensures out_after { (cs : List Cue) → assembled text.now ≡ cues cs
        → out.new ≡ sets out.old 0 (list_of cs) }
{
    walk_with(text, &mut [0; known::MOST_NAMES], out)
}
