// A command of a packet, as it is shown where it is refused.
ghost use Rattle.std.specs.Prelude.{◌≡◌};
ghost use Rattle.text.specs.Room.{filled, put_at};
ghost use Rattle.packet_text.specs.Wording.{element_bytes, kind_text, fields_text, address_digits, address_text, described_text};
ghost use Rattle.packet_text.specs.Wording.{last_place, bytes_named, span_text, command_text};

use lbp16::word::Fields;
use packet::command;
use reason::{Reason, slice};
use text::{line, number, pick};

fn element_bytes(code: u8) -> u64
    ensures { result ≡ element_bytes code }
{
    match code {
        0 => 1,
        1 => 2,
        2 => 4,
        _ => 8,
    }
}

pub(crate) fn kind(out: &mut [u8], at: usize, f: Fields) -> usize
    ensures { filled result out.new ≡ put_at (kind_text f) at out.old }
{
    let write = pick(f.info, b"info write", b"write");
    let read = pick(f.info, b"info read", b"read");
    text::put(out, at, pick(f.write, write, read))
}

fn fields(out: &mut [u8], at: usize, f: Fields) -> usize
    ensures { filled result out.new ≡ put_at (fields_text f) at out.old }
{
    let at = kind(out, at, f);
    let at = line::numbered(out, at, b", space ", f.space as u64);
    let at = line::numbered(out, at, b", ", element_bytes(f.size));
    let steps = pick(
        f.increment,
        b"-byte elements, increment",
        b"-byte elements, no increment",
    );
    let at = text::put(out, at, steps);
    line::numbered(out, at, b", count ", f.count as u64)
}

pub(crate) fn address_digits(n: u32) -> usize
    ensures { result ≡ address_digits n }
{
    if n < 65536 { 4 } else { 5 }
}

// `n`: the bytes of the packet from the command on.
fn address(out: &mut [u8], at: usize, n: usize, r: Reason) -> usize
    ensures { filled result out.new ≡ put_at (address_text n r) at out.old }
{
    let f = r.fields;
    let given = f.address;
    if given & (n < 4) {
        return text::put(out, at, b", address cut off\n");
    }
    let at = text::put(
        out,
        at,
        pick(given, b", address 0x", b", address from the pointer (0x"),
    );
    let at = number::hex(out, at, address_digits(r.address), r.address as u64);
    text::put(out, at, pick(given, b"\n", b")\n"))
}

fn described(out: &mut [u8], at: usize, n: usize, r: Reason) -> usize
    ensures { filled result out.new ≡ put_at (described_text n r) at out.old }
{
    if n < 2 {
        return text::put(out, at, b": word cut off\n");
    }
    let at = text::put(out, at, b": ");
    let at = fields(out, at, r.fields);
    address(out, at, n, r)
}

fn last_place(place: u64, n: usize) -> u64
    ensures { result ≡ last_place place n }
{
    place.saturating_add((n as u64).saturating_sub(1))
}

fn span(out: &mut [u8], at: usize, r: Reason, last: u64) -> usize
    ensures { filled result out.new ≡ put_at (span_text r last) at out.old }
{
    let at = line::numbered(out, at, b"command ", r.index);
    let at = line::numbered(out, at, b", bytes ", r.place);
    line::numbered(out, at, b" to ", last)
}

// The bytes that a command's own word asks for.
fn bytes_named(f: Fields) -> usize
    ensures { result ≡ bytes_named f }
{
    let header = command::header_bytes(f);
    if f.write {
        return header + f.count as usize * element_bytes(f.size) as usize;
    }
    header
}

// The command at fault: its index, its bytes, and what they say.
pub fn put_command(out: &mut [u8], at: usize, packet: &[u8], r: Reason) -> usize
    ensures { filled result out.new ≡ put_at (command_text packet.now r) at out.old }
{
    let rest = slice::rest(packet, r.place as usize);
    let k = bytes_named(r.fields);
    let shown = reason::front(rest, k as u64);
    let at = span(out, at, r, last_place(r.place, shown.len()));
    let at = text::put(out, at, b",");
    let at = number::bytes(out, at, shown);
    described(out, at, rest.len(), r)
}
