// Cue lists compiled, tightened and salvaged, and recordings judged.
ghost use Rattle.std.specs.Prelude.{◌≤◌};

use crate::slice::Bytes;
use crate::{answer, form, slice};
use packet::bytes;
use std::io;
use std::io::Write;

// A form with what stands at the front of the room.
fn told<W: Write>(
    to: &mut W,
    form: &[u8],
    values: [u64; 9],
    list: &[u8],
    room: [u8; 8192],
) -> io::Result<()> {
    let out = slice::part(&room, 0, answer::first(values));
    form::fill_with(to, form, values, list, out)
}

fn output<W: Write>(
    to: &mut W,
    list: &[u8],
    values: [u64; 9],
    room: [u8; 8192],
) -> io::Result<Bytes> {
    told(
        to,
        b"*:[ refused # at #| compiled, # bytes, # packet][s|][, lengths|]~[:|]$\n",
        values,
        list,
        room,
    )?;
    let n = answer::first(values);
    Ok(Bytes::of(room, n))
}

// A list, and what it compiles to with so many bytes of room.
pub(crate) fn compiled<W: Write>(to: &mut W, list: &[u8], most: u64) -> io::Result<Bytes> {
    let mut room = [0u8; 8192];
    let k = slice::within(most, &room);
    let given = cue::compile(list, &mut room[..k]);
    output(to, list, answer::of_list(given), room)
}

fn tighter<W: Write>(to: &mut W, list: &[u8]) -> io::Result<()> {
    let mut room = [0u8; 8192];
    let given = planner::tighten(list, &mut room);
    output(to, b"", answer::of_list(given), room)?;
    Ok(())
}

// A list compiled, and what the planner puts out.
pub(crate) fn tightened<W: Write>(to: &mut W, list: &[u8]) -> io::Result<()> {
    compiled(to, list, 8192)?;
    form::say(to, b"tighter")?;
    tighter(to, list)
}

fn log_at(log: [u64; 8], i: usize) -> u64
    requires { i ≤ 7 }
{
    log[i]
}

// The log's entry at i: place and number of bytes of a stretch that was skipped, no bytes where there is none.
fn entry<W: Write>(to: &mut W, log: [u64; 8], i: usize) -> io::Result<()>
    requires { i ≤ 6 }
{
    let n = log_at(log, i + 1);
    form::fill(
        to,
        b"[, skipped # at #|]",
        [n, n, log_at(log, i), 0, 0, 0, 0, 0, 0],
    )
}

fn entries<W: Write>(to: &mut W, log: [u64; 8]) -> io::Result<()> {
    for i in 0..4 {
        entry(to, log, 2 * i)?;
    }
    Ok(())
}

fn kept<W: Write>(
    to: &mut W,
    damaged: &[u8],
    values: [u64; 9],
    log: [u64; 8],
    room: [u8; 8192],
) -> io::Result<()> {
    form::fill_with(
        to,
        b"*:[ refused # at #| kept # bytes]",
        values,
        damaged,
        damaged,
    )?;
    entries(to, log)?;
    told(to, b"[|:]$\n", values, damaged, room)
}

fn salvaged_in<W: Write>(to: &mut W, damaged: &[u8], k: usize, m: usize) -> io::Result<()>
    requires { (k ≤ 8192) × (m ≤ 8) }
{
    let mut room = [0u8; 8192];
    let mut log = [0u64; 8];
    let given = salvage::salvage(damaged, &mut room[..k], &mut log[..m]);
    kept(to, damaged, answer::of_salvage(given), log, room)
}

// A damaged list salvaged, with room for so many bytes and numbers of the log.
pub(crate) fn salvaged<W: Write>(to: &mut W, damaged: &[u8], rooms: &[u8]) -> io::Result<()> {
    salvaged_in(
        to,
        damaged,
        text::least(bytes::pair_at(rooms, 0) as usize, 8192),
        text::least(bytes::pair_at(rooms, 2) as usize, 8),
    )
}

fn found<W: Write>(to: &mut W, room: [u8; 24576], n: usize) -> io::Result<()> {
    form::say(to, slice::part(&room, 0, n as u64))
}

// A recorded show judged on a fresh card: packets and replies in turn, each behind "LB" and its length.
pub(crate) fn judged<W: Write>(to: &mut W, recording: &[u8]) -> io::Result<()> {
    let mut room = [0u8; 24576];
    let n = showcheck_output::findings(recording, &mut room);
    found(to, room, n)
}
