// What programs read and write, over any reader and writer: a read that fails, or that a signal interrupts, is not the end.
#![tactic(auto)]

ghost use Rattle.std.specs.Prelude.{◌≤◌, ◌≡◌, ◌≢◌, length, take};
ghost use Rattle.std.specs.Str.{IsUtf8};
ghost use Rattle.std.specs.declared.option.Option.TheVariants.{None};
ghost use Rattle.text.specs.Number.{ascii};
ghost use Rattle.std.specs.Io.{WritesAtMost};
ghost use Rattle.std.specs.Io.KnownBytes.{WriteAppends};
ghost use Rattle.input.specs.Reading.{Within, Behind, TookNone, TookSome, TookBehind, TookAll};
ghost use Rattle.input.specs.Writing.{WroteAll};

use std::env::{Env, FillError};
use std::fs::File;
use std::io::{ErrorKind, Read, Write};
use std::rt::Files;
use std::{io, str};

// More reads than are interrupted one after the other.
const TRIES: u64 = 1000000;

// What one read gives, at the front of the room: as soon as there is something, and at most as much as the room has.
pub fn some<R: Read>(from: &mut R, room: &mut [u8]) -> io::Result<usize>
    ensures within { Within result room.new }
    ensures bytes { TookSome (R.remaining from.old) (R.remaining from.new) result room.new }
{
    for _ in 0..TRIES {
        match from.read(room) {
            Ok(came) => return Ok(came),
            Err(e) => {
                if e.kind() != ErrorKind::Interrupted {
                    return Err(e);
                }
            }
        }
    }
    Err(io::Error::from(ErrorKind::Interrupted))
}

fn behind<R: Read>(reader: &mut R, room: &mut [u8], from: usize) -> io::Result<usize>
    requires { from ≤ length room.old }
    ensures behind { Behind from result room.new }
    ensures front { take from room.new ≡ take from room.old }
    ensures bytes { TookBehind (R.remaining reader.old) (R.remaining reader.new) from result room.new }
{
    some(reader, &mut room[from..])
}

// All that comes, until the end or until the room is full.
pub fn all<R: Read>(from: &mut R, room: &mut [u8]) -> io::Result<usize>
    ensures within { Within result room.new }
    ensures bytes { TookAll (R.remaining from.old) (R.remaining from.new) result room.new }
{
    let mut n: usize = 0;
    // How far a turn goes is known only once it has read.
    while n < room.len() {
        match behind(from, room, n) {
            Ok(0) => return Ok(n),
            Ok(k) => n += k,
            Err(e) => return Err(e),
        }
    }
    Ok(n)
}

// Input of a program that takes no words: how it is used is said without a look there.
pub fn asked<R: Read>(words: usize, from: &mut R, room: &mut [u8]) -> io::Result<usize>
    ensures within { Within result room.new }
    ensures bytes { words ≡ 1 → TookAll (R.remaining from.old) (R.remaining from.new) result room.new }
    ensures none { words ≢ 1 → TookNone (R.remaining from.old) (R.remaining from.new) result }
{
    if words != 1 {
        return Ok(0);
    }
    all(from, room)
}

// The first n bytes; all where there are fewer.
pub fn front(bytes: &[u8], n: usize) -> &[u8]
    ensures { result.now ≡ take n bytes.now }
{
    bytes.get(..n).unwrap_or(bytes)
}

// What one write takes. The loop is that of `some`: what an interrupted try leaves is said of a reader there and of a writer here.
fn written<W: Write>(to: &mut W, bytes: &[u8]) -> io::Result<usize>
    ensures bound { WritesAtMost result bytes.now }
    ensures bytes { WriteAppends (W.contents to.old) (W.contents to.new) result bytes.now }
{
    for _ in 0..TRIES {
        match to.write(bytes) {
            Ok(n) => return Ok(n),
            Err(e) => {
                if e.kind() != ErrorKind::Interrupted {
                    return Err(e);
                }
            }
        }
    }
    Err(io::Error::from(ErrorKind::Interrupted))
}

// Where a write fails, a front of the bytes was written.
fn write_all<W: Write>(to: &mut W, bytes: &[u8]) -> io::Result<()>
    ensures { WroteAll (W.contents to.old) (W.contents to.new) result bytes.now }
{
    let mut done: usize = 0;
    // How far a turn goes is known only once it has written.
    while done < bytes.len() {
        match written(to, &bytes[done..]) {
            Ok(0) => return Err(io::Error::from(ErrorKind::WriteZero)),
            Ok(n) => done += n,
            Err(e) => return Err(e),
        }
    }
    Ok(())
}

// Writes the first n bytes.
pub fn put<W: Write>(to: &mut W, room: &[u8], n: usize) -> io::Result<()>
    ensures { WroteAll (W.contents to.old) (W.contents to.new) result (take n room.now) }
{
    write_all(to, front(room, n))
}

// What is said of a read that failed.
pub fn cannot_read<W: Write>(to: &mut W) -> io::Result<()>
    ensures { WroteAll (W.contents to.old) (W.contents to.new) result (ascii "cannot read\n") }
{
    write_all(to, b"cannot read\n")
}

// How many words the program was started with, its name among them, counted up to `most`.
pub fn words(rt: &impl Env, most: usize) -> usize
    ensures { result ≤ most }
{
    for i in 0..most {
        if matches!(rt.arg(i, &mut []), Err(FillError::NotPresent)) {
            return i;
        }
    }
    most
}

// The file of this name, unless it cannot be opened; a name that is no text names none.
pub fn opened<F: Files>(rt: &F, name: &[u8]) -> Option<F::File>
    ensures { ¬ (IsUtf8 name.now) → result ≡ None }
{
    match str::from_utf8(name) {
        Ok(text) => File::open(rt, text).ok(),
        Err(_) => None,
    }
}
