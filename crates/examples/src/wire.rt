// A card, and what is sent to it.
ghost use Rattle.std.specs.Prelude.{◌≤◌};

use crate::slice::Bytes;
use crate::{answer, form, slice};
use card::check::STORE_BYTES;
use card::run;
use packet::bytes;
use packet::command::LIMIT;
use std::io;
use std::io::Write;

// Where the packet count and the card's name stand in the store.
const COUNT: usize = 65664 + 0x0A;

const NAME: usize = 65696;

// A card, and the values that were read from it.
#[derive(Clone, Copy)]
pub(crate) struct Card {
    pub(crate) store: [u8; STORE_BYTES],
    pub(crate) pointers: [u32; 8],
    pub(crate) read: Bytes,
}

pub(crate) fn fresh() -> Card {
    Card {
        store: [0; STORE_BYTES],
        pointers: [0; 8],
        read: Bytes::empty(),
    }
}

pub(crate) fn count(card: &Card) -> u64 {
    bytes::pair_at(&card.store, COUNT) as u64
}

pub(crate) fn same_stores(a: &Card, b: &Card, but: bool) -> u64 {
    slice::same(&a.store, &b.store, but) as u64
}

// Runs a packet: one that is refused changes nothing.
fn run_on(sent: &[u8], card: &mut Card, reply: &mut [u8; LIMIT]) -> [u64; 9] {
    let ran = run::run_lent(sent, &mut card.store, &mut card.pointers, reply);
    answer::of_packet(ran)
}

// Writes the answer in a form, and keeps the reply behind what was read before.
fn replied<W: Write>(to: &mut W, form: &[u8], sent: &[u8], card: &mut Card) -> io::Result<()> {
    let mut reply = [0u8; LIMIT];
    let values = run_on(sent, card, &mut reply);
    let got = slice::part(&reply, 0, answer::first(values));
    form::fill_with(to, form, values, sent, got)?;
    card.read.add(got);
    Ok(())
}

pub(crate) fn packet<W: Write>(to: &mut W, sent: &[u8], card: &mut Card) -> io::Result<()> {
    replied(
        to,
        b"*:[ refused # at #| accepted, # bytes][:|]&\n",
        sent,
        card,
    )
}

pub(crate) fn moving<W: Write>(to: &mut W, sent: &[u8], card: &mut Card) -> io::Result<()> {
    replied(
        to,
        b" ^:[ refused # at #| accepted, reply of # bytes][|], elements moved #\n",
        sent,
        card,
    )
}

// A byte that is not there counts as 0.
fn byte_at(s: &[u8], at: usize) -> u8 {
    s.get(at).copied().unwrap_or(0)
}

// The first four bytes, high byte first.
pub(crate) fn first_word(s: &[u8]) -> u32 {
    u32::from_be_bytes([byte_at(s, 0), byte_at(s, 1), byte_at(s, 2), byte_at(s, 3)])
}

fn words_of(s: &[u8]) -> [u32; 8] {
    let mut words = [0u32; 8];
    for (word, bytes) in words.iter_mut().zip(s.chunks(4)) {
        *word = first_word(bytes);
    }
    words
}

fn word<W: Write>(to: &mut W, w: u32) -> io::Result<()> {
    form::fill(
        to,
        b" @@",
        [(w / 65536) as u64, w as u64, 0, 0, 0, 0, 0, 0, 0],
    )
}

fn words<W: Write>(to: &mut W, all: [u32; 8], n: usize) -> io::Result<()>
    requires { n ≤ 8 }
{
    for &w in &all[..n] {
        word(to, w)?;
    }
    Ok(())
}

fn burst_answered<W: Write>(
    to: &mut W,
    values: [u64; 9],
    room: [u32; 8],
    n: usize,
) -> io::Result<()>
    requires { n ≤ 8 }
{
    form::fill(to, b":[ refused # at #| accepted:]", values)?;
    if !answer::is_set(values) {
        words(to, room, n)?;
    }
    form::say(to, b"\n")
}

// A burst of the first n words.
fn burst_of<W: Write>(to: &mut W, sent: [u32; 8], n: usize, card: &mut Card) -> io::Result<()>
    requires { n ≤ 8 }
{
    let mut room = [0u32; 8];
    let given = spi::burst(&sent[..n], &mut card.store, &mut room[..n]);
    burst_answered(to, answer::of_burst(given), room, n)
}

pub(crate) fn burst<W: Write>(to: &mut W, sent: &[u8], card: &mut Card) -> io::Result<()> {
    let all = words_of(sent);
    let n = text::least(sent.len() / 4, 8);
    words(to, all, n)?;
    burst_of(to, all, n, card)
}

// The card with a name, which no packet can set.
pub(crate) fn named(name: &[u8], card: &mut Card) {
    text::put(&mut card.store, NAME, name);
}
