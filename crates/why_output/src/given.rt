// The file of the card's pointers.
ghost use Rattle.std.specs.Prelude.{◌≡◌, ◌+◌, ◌*◌, ◌≤◌};
ghost use Rattle.why_output.specs.Given.{quad_at, spaces_in, pointers_in};

use lbp16::pointer::{Pointer, Pointers, SpacePointers};
use packet::bytes;

fn joined(low: u16, high: u16) -> u32
    ensures { result ≡ low + 65536 * high }
{
    low as u32 + 65536 * high as u32
}

// The number in the four bytes from `at` on, low byte first; a byte that is not there counts as 0.
fn quad_at(file: &[u8], at: usize) -> u32
    requires { at ≤ 28 }
    ensures { result ≡ quad_at file.now at }
{
    joined(bytes::pair_at(file, at), bytes::pair_at(file, at + 2))
}

// A file's first number; it may be asked of any file.
pub fn first_number(file: &[u8]) -> u32
    ensures { result ≡ quad_at file.now 0 }
{
    quad_at(file, 0)
}

fn spaces_in(file: &[u8], at: usize) -> SpacePointers
    requires { at ≤ 16 }
    ensures { result ≡ spaces_in file.now at }
{
    SpacePointers {
        registers: Pointer::new(quad_at(file, at)),
        eeprom: Pointer::new(quad_at(file, at + 4)),
        status: Pointer::new(quad_at(file, at + 8)),
        information: Pointer::new(quad_at(file, at + 12)),
    }
}

pub fn pointers_in(file: &[u8]) -> Pointers
    ensures { result ≡ pointers_in file.now }
{
    Pointers {
        plain: spaces_in(file, 0),
        info: spaces_in(file, 16),
    }
}
