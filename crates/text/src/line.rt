// Lines that programs write.
ghost use Rattle.std.specs.Prelude.{◌≡◌};
ghost use Rattle.text.specs.Line.{numbered, pair_line, refused_line, too_long_line};
ghost use Rattle.text.specs.Room.{filled, put_at};

use crate::{number, put};

// A number behind its text.
pub fn numbered(out: &mut [u8], at: usize, before: &[u8], n: u64) -> usize
    ensures { filled result out.new ≡ put_at (numbered before.now n) at out.old }
{
    let next = put(out, at, before);
    number::decimal(out, next, n)
}

// A line of two numbers, each behind its text.
pub fn pair(out: &mut [u8], at: usize, first: &[u8], n: u64, second: &[u8], k: u64) -> usize
    ensures { filled result out.new ≡ put_at (pair_line first.now n second.now k) at out.old }
{
    let next = numbered(out, at, first, n);
    let next = numbered(out, next, second, k);
    put(out, next, b"\n")
}

// A refusal's number and place.
pub fn refused(out: &mut [u8], at: usize, n: u64, place: u64) -> usize
    ensures { filled result out.new ≡ put_at (refused_line n place) at out.old }
{
    pair(out, at, b"refused ", n, b" at ", place)
}

pub fn too_long(out: &mut [u8], at: usize) -> usize
    ensures { filled result out.new ≡ put_at too_long_line at out.old }
{
    put(out, at, b"too long\n")
}
