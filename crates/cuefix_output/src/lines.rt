// The lines that the program writes, each at the front of a room that it fits.
ghost use Rattle.std.specs.Prelude.{◌≡◌, ◌-◌, ◌≤◌, take, drop};
ghost use Rattle.text.specs.Line.{too_long_line};
ghost use Rattle.text.specs.Room.{filled, put_at, text_left};
ghost use Rattle.salvage.specs.Salvage.{size_at};
ghost use Rattle.cuefix_output.specs.Account.{usage_line, skipped_line, kept_line, record_line, last_from, look_line};

use cue::records;
use text::{find, line, number};

pub fn usage(room: &mut [u8; 64]) -> usize
    ensures { filled result room.new ≡ text_left usage_line room.old }
{
    text::put(room, 0, b"usage: cuefix [--log] < LIST\n")
}

pub fn too_long(room: &mut [u8; 64]) -> usize
    ensures { filled result room.new ≡ text_left too_long_line room.old }
{
    line::too_long(room, 0)
}

// A stretch skipped: two numbers of the log.
pub fn skipped(room: &mut [u8; 64], start: u64, n: u64) -> usize
    ensures { filled result room.new ≡ text_left (skipped_line start n) room.old }
{
    line::pair(room, 0, b"skipped ", n, b" at ", start)
}

pub fn kept(room: &mut [u8; 64], records: u64, bytes: u64) -> usize
    ensures { filled result room.new ≡ text_left (kept_line records bytes) room.old }
{
    line::pair(room, 0, b"kept records ", records, b", bytes ", bytes)
}

// The bytes of the record at a place.
fn size_at(list: &[u8], at: usize) -> usize
    ensures { result ≡ size_at (drop at list.now) }
{
    let r = records::record_at(find::rest(list, at));
    records::record_bytes(r.write)
}

fn last_record(list: &[u8], from: usize, to: usize) -> usize
    requires { from ≤ to }
    ensures { (result ≡ last_from to list.now from to) × (result ≤ to) }
{
    let mut at = from;
    let mut size = size_at(list, at);
    // Where a record ends is known only once it is read.
    while size < to - at {
        at += size;
        size = size_at(list, at);
    }
    at
}

fn put_record(room: &mut [u8], bytes: &[u8], start: usize) -> usize
    ensures { filled result room.new ≡ put_at (record_line bytes.now start) 0 room.old }
{
    let next = line::numbered(room, 0, b"record at ", start as u64);
    let next = text::put(room, next, b",");
    let next = number::bytes(room, next, bytes);
    text::put(room, next, b": look at it\n")
}

// The bytes from a place up to another, as far as there are any.
fn between(list: &[u8], from: usize, to: usize) -> &[u8]
    requires { from ≤ to }
    ensures { result.now ≡ take (to - from) (drop from list.now) }
{
    let a = text::least(from, list.len());
    let b = text::least(to, list.len());
    &list[a..b]
}

// The record before a stretch that is skipped; nothing where the one before ends there.
pub fn look(room: &mut [u8], list: &[u8], from: usize, start: usize) -> usize
    ensures { filled result room.new ≡ put_at (look_line list.now from start) 0 room.old }
{
    if start <= from {
        return 0;
    }
    let k = last_record(list, from, start);
    put_record(room, between(list, k, start), k)
}
