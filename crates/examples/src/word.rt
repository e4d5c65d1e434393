// Command words and SPI headers: their fields, and what these are written as.
use crate::{answer, form};
use lbp16::word;
use lbp16::word::Fields;
use packet::bytes;
use spi::Header;
use std::io;
use std::io::Write;

fn of_fields(f: Fields) -> [u64; 9] {
    [
        f.write as u64,
        f.address as u64,
        f.info as u64,
        f.space as u64,
        1 << (f.size % 4),
        f.increment as u64,
        f.count as u64,
        0,
        0,
    ]
}

fn word_back<W: Write>(to: &mut W, f: Fields) -> io::Result<()> {
    let written = answer::of_word(word::word_of(f));
    form::fill(to, b"[ refused # at #| written back%%]\n", written)
}

pub(crate) fn word<W: Write>(to: &mut W, sent: &[u8]) -> io::Result<()> {
    let f = word::fields_of(bytes::pair_at(sent, 0));
    form::fill_with(
        to,
        b"*: [write|read],[| no] address,[ info,|] space #, # bytes,[| no] increment, count #;",
        of_fields(f),
        sent,
        sent,
    )?;
    word_back(to, f)
}

fn of_header(w: u32, h: Header) -> [u64; 9] {
    [
        (w / 65536) as u64,
        w as u64,
        (h.command == 0xA) as u64,
        (h.command == 0xB) as u64,
        ((h.command != 0xA) & (h.command != 0xB)) as u64,
        h.command as u64,
        h.address as u64,
        h.increment as u64,
        h.count as u64,
    ]
}

fn header_back<W: Write>(to: &mut W, h: Header) -> io::Result<()> {
    let written = answer::of_header(spi::header_word(h));
    form::fill(to, b"[ refused # at #| written back @@]\n", written)
}

pub(crate) fn header<W: Write>(to: &mut W, w: u32) -> io::Result<()> {
    let h = spi::header_of(w);
    form::fill(
        to,
        b" @@:[ read|][ write|][ command #|], address @,[| no] increment, count #;",
        of_header(w, h),
    )?;
    header_back(to, h)
}
