// A line for each accepted command.
ghost use Rattle.std.specs.Prelude.{◌≡◌, cond, ◌+◌, ◌*◌, ◌≤◌, length, take, drop};
ghost use Rattle.std.proofs.lemmas.List.Edits.{sets};
ghost use Rattle.text.specs.Room.{filled, put_at};
ghost use Rattle.packet.specs.Bytes.{number};
ghost use Rattle.packet.specs.Judge.{Carried, judge, accepted};
ghost use Rattle.reason.specs.Reason.{pointers_left};
ghost use Rattle.packet_text.specs.Packet.{named_text, used_text, moved_text, values_text, written_text, line_by, lines_text};
ghost use Rattle.packet_text.specs.Inside.{laid_at, Plain};

use crate::{Shown, command};
use lbp16::pointer::Pointers;
use lbp16::word::Fields;
use packet::{bytes, command as head};
use reason::slice;
use space_text::put_space;
use text::{least, line, number, pick};

fn put_named(out: &mut [u8], at: usize, place: usize, f: Fields) -> usize
    ensures { filled result out.new ≡ put_at (named_text place f) at out.old }
{
    let at = line::numbered(out, at, b"  ", place as u64);
    let at = text::put(out, at, b": ");
    let at = command::kind(out, at, f);
    let at = text::put(out, at, b" ");
    put_space(out, at, f.space)
}

fn put_used(out: &mut [u8], at: usize, f: Fields, used: u32) -> usize
    ensures { filled result out.new ≡ put_at (used_text f used) at out.old }
{
    let at = text::put(out, at, pick(f.address, b" 0x", b" from the pointer (0x"));
    let at = number::hex(out, at, command::address_digits(used), used as u64);
    text::put(out, at, pick(f.address, b"", b")"))
}

fn put_moved(out: &mut [u8], at: usize, f: Fields) -> usize
    ensures { filled result out.new ≡ put_at (moved_text f) at out.old }
{
    let at = line::numbered(out, at, b", ", f.count as u64);
    let at = text::put(out, at, pick(f.count == 1, b" element", b" elements"));
    text::put(
        out,
        at,
        pick(f.increment, b", increment", b", no increment"),
    )
}

// The number in the first four bytes, or in the first two.
fn value(bytes: &[u8], four: bool) -> u64
    ensures { result ≡ number (take (cond four 4 2) bytes.now) }
{
    let low = bytes::pair_at(bytes, 0) as u64;
    if four {
        return low + 65536 * bytes::pair_at(bytes, 2) as u64;
    }
    low
}

// The bytes of an element.
fn width(four: bool) -> usize
    ensures { (result ≡ cond four 4 2) × (result ≤ 4) }
{
    if four { 4 } else { 2 }
}

// The value that stands at a place.
fn put_value(out: &mut [u8], at: usize, bytes: &[u8], from: usize, four: bool) -> usize
    ensures { filled result out.new ≡ put_at (values_text (cond four 4 2) 1 (drop from bytes.now)) at out.old }
{
    let at = text::put(out, at, b" 0x");
    let n = value(slice::rest(bytes, from), four);
    number::hex(out, at, 2 * width(four), n)
}

fn put_values(out: &mut [u8], at: usize, bytes: &[u8], four: bool, count: u8) -> usize
    ensures { filled result out.new ≡ put_at (values_text (cond four 4 2) count bytes.now) at out.old }
{
    let n = width(four);
    let mut next = least(at, out.len());
    let mut from: usize = 0;
    for _ in 0..count {
        next = put_value(out, next, bytes, from, four);
        from += n;
    }
    next
}

fn put_written(out: &mut [u8], at: usize, f: Fields, rest: &[u8]) -> usize
    requires { Plain 0 f }
    ensures { filled result out.new ≡ put_at (written_text f rest.now) at out.old }
{
    if f.write {
        let at = text::put(out, at, b":");
        let carried = slice::rest(rest, head::header_bytes(f));
        let at = put_values(out, at, carried, f.space == 0, f.count);
        return text::put(out, at, b"\n");
    }
    text::put(out, at, b"\n")
}

fn put_line(out: &mut [u8], at: usize, place: usize, f: Fields, used: u32, rest: &[u8]) -> usize
    requires { Plain place f }
    ensures { filled result out.new ≡ put_at (line_by place f used rest.now) at out.old }
{
    let at = put_named(out, at, place, f);
    let at = put_used(out, at, f, used);
    let at = put_moved(out, at, f);
    put_written(out, at, f, rest)
}

// The bytes of the line, which is put as far as there is room.
fn lay_line(out: &mut [u8], at: usize, place: usize, f: Fields, used: u32, rest: &[u8]) -> usize
    requires { Plain place f }
    ensures { (result ≡ length (line_by place f used rest.now)) × (out.new ≡ sets out.old at (line_by place f used rest.now)) }
{
    let mut room = [0u8; 1536];
    let n = put_line(&mut room, 0, place, f, used, rest);
    text::put(out, at, &room[..n]);
    n
}

// The lines of commands that the check accepts.
pub(crate) fn lay_lines(out: &mut [u8], commands: &[u8], p: Pointers) -> Shown
    requires { (length commands.now ≤ 1472) × ((end : Carried) × (judge p commands.now ≡ accepted end)) }
    ensures { (filled result.bytes out.new ≡ laid_at (lines_text p commands.now) 0 out.old)
        × (result.pointers ≡ pointers_left (judge p commands.now) p) × (result.bytes ≤ 44 * length commands.now) }
{
    let mut pointers = p;
    let mut rest = commands;
    let mut bytes: usize = 0;
    // The address that a command uses depends on the pointers that the one before left.
    while rest.len() != 0 {
        let f = head::fields_at(rest);
        let used = head::address_used(pointers, f, rest);
        let n = lay_line(out, bytes, commands.len() - rest.len(), f, used, rest);
        bytes += n;
        pointers = head::pointers_after(pointers, f, used);
        let k = head::command_bytes(f);
        rest = &rest[k..];
    }
    Shown { bytes, pointers }
}
