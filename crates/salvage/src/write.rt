// The second pass: kept records go to the output, and skipped stretches to the log.
ghost use Rattle.std.specs.Prelude.{◌≡◌, [], ◌∷◌, ◌++◌, ◌+◌, ◌*◌, ◌≤◌, length, drop};
ghost use Rattle.std.proofs.lemmas.List.Edits.{sets};
ghost use Rattle.salvage.specs.Salvage.{output, logged};
ghost use Rattle.salvage.specs.Inside.{record_part, entry_part, Ready};

use crate::scan;
use crate::scan::{Counts, Span};

// The bytes of a stretch at the front of `rest`, if it is kept.
fn put_record(out: &mut [u8], at: usize, rest: &[u8], s: Span)
    requires { (s.bytes ≤ length rest.now) × (at + length (record_part s rest.now) ≤ length out.old) }
    ensures { out.new ≡ sets out.old at (record_part s rest.now) }
{
    if s.kept {
        let n = s.bytes;
        text::put(out, at, &rest[..n]);
    }
}

fn put_pair(room: &mut [u64], first: u64, second: u64)
    requires { length room.old ≡ 2 }
    ensures { room.new ≡ first ∷ second ∷ [] }
{
    if let Some(pair) = room.as_mut_array() {
        *pair = [first, second];
    }
}

// Start and length of a stretch, if it is skipped.
fn put_entry(log: &mut [u64], entries: usize, at: usize, s: Span)
    requires { 2 * entries + length (entry_part s at) ≤ length log.old }
    ensures { log.new ≡ sets log.old (2 * entries) (entry_part s at) }
{
    if s.kept {
        return;
    }
    let first = 2 * entries;
    put_pair(&mut log[first..first + 2], at as u64, s.bytes as u64);
}

pub(crate) fn write(list: &[u8], out: &mut [u8], log: &mut [u64])
    requires { Ready list.now out.old log.old }
    ensures out_after { out.new ≡ output list.now ++ drop (length (output list.now)) out.old }
    ensures log_after { log.new ≡ logged list.now ++ drop (length (logged list.now)) log.old }
{
    let mut c = Counts::none();
    let mut at: usize = 0;
    // As in the first pass, whose counts are where the next bytes go.
    while at < list.len() {
        let s = scan::span_at(&list[at..]);
        put_record(out, c.bytes, &list[at..], s);
        put_entry(log, c.entries, at, s);
        c = scan::tallied(c, s);
        at += s.bytes;
    }
}
