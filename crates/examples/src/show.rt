// Shows played end to end: a list's packets run on one card, and its records done one by one on another.
ghost use Rattle.std.specs.Prelude.{◌≤◌, length};

use crate::form::Packets;
use crate::slice::Bytes;
use crate::wire::Card;
use crate::{form, list, slice, wire};
use cue::records;
use lbp16::space;
use packet::bytes;
use packet::command::LIMIT;
use std::io;
use std::io::Write;

// Runs the packets of an output in order, and keeps what they read.
pub(crate) fn play<W: Write>(to: &mut W, out: &Bytes, card: &mut Card) -> io::Result<()> {
    card.read = Bytes::empty();
    for packet in Packets(out.whole()) {
        form::say(to, b"packet")?;
        wire::packet(to, slice::part(packet, 0, LIMIT as u64), card)?;
    }
    Ok(())
}

// The bytes of each record of a list.
#[derive(Clone, Copy)]
struct Records<'a>(&'a [u8]);

impl<'a> Iterator for Records<'a> {
    ghost use Rattle.std.specs.Prelude.{length};
    ghost use Rattle.std.specs.Iterator.{at_most};

    type Item = &'a [u8];

    ghost remaining = { λ s. at_most (length s.0.now) };

    fn next(&mut self) -> Option<&'a [u8]> {
        if self.0.is_empty() {
            return None;
        }
        let (record, others) = self.0.split_at(record_bytes(self.0));
        self.0 = others;
        Some(record)
    }
}

fn record_bytes(rest: &[u8]) -> usize
    requires { 1 ≤ length rest.now }
    ensures { (1 ≤ result) × (result ≤ length rest.now) }
{
    if bytes::pair_at(rest, 0) == records::WRITE_MARK {
        return slice::within(10, rest);
    }
    slice::within(6, rest)
}

// One record alone: its element is read or written straight in the store.
fn record_alone(record: &[u8], card: &mut Card) {
    let r = records::record_at(record);
    let row = space::row_of(r.space);
    let at = row.place as u64 + r.address as u64;
    let n = row.element as u64;
    if r.write {
        text::put(&mut card.store, at as usize, slice::part(record, 6, n));
    } else {
        card.read.add(slice::part(&card.store, at, n));
    }
}

// The records of a list one by one.
fn alone(list: &[u8]) -> Card {
    let mut card = wire::fresh();
    for record in Records(list) {
        record_alone(record, &mut card);
    }
    card
}

fn values<W: Write>(to: &mut W, read: &Bytes) -> io::Result<()> {
    let s = read.whole();
    form::fill_with(to, b"records one by one, values read:&\n", [0; 9], s, s)
}

fn compared<W: Write>(to: &mut W, packets: &Card, records: &Card) -> io::Result<()> {
    let same = slice::same_bytes(&packets.read, &records.read);
    let stores = wire::same_stores(packets, records, true);
    form::fill(
        to,
        b"replies and values read: [equal|different]; stores but for the unlock cell and the packet count: [equal|different]",
        [same, stores, 0, 0, 0, 0, 0, 0, 0],
    )?;
    let alone = wire::count(records);
    let packed = wire::count(packets);
    form::fill(
        to,
        b"; packet count after the records #, after the packets #\n",
        [alone, packed, 0, 0, 0, 0, 0, 0, 0],
    )
}

// A list compiled, and done both ways.
pub(crate) fn show<W: Write>(to: &mut W, list: &[u8]) -> io::Result<()> {
    let out = list::compiled(to, list, 8192)?;
    let mut packets = wire::fresh();
    play(to, &out, &mut packets)?;
    let records = alone(list);
    values(to, &records.read)?;
    compared(to, &packets, &records)
}
