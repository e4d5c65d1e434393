// The card's spaces as one table.
ghost use Rattle.std.specs.Prelude.{◌≡◌};
ghost use Rattle.lbp16.specs.Space.{space_of, row, area_row, is_absent};

use crate::pointer::Pointer;

// A space that the card has, or one of those that it lacks.
#[derive(Clone, Copy, Debug, PartialEq, Eq)]
pub enum Space {
    Registers,
    Eeprom,
    Status,
    Information,
    Absent,
}

impl From<u8> for Space {
    ghost use Rattle.std.specs.Prelude.{◌≡◌};
    ghost use Rattle.lbp16.specs.Space.{space_named, space_of};

    ghost from_gives = { λ code s. space_named s ≡ space_of code };

    fn from(code: u8) -> Space {
        match code {
            0 => Space::Registers,
            2 => Space::Eeprom,
            6 => Space::Status,
            7 => Space::Information,
            _ => Space::Absent,
        }
    }
}

// One line of the table. `place` is where the space starts in the store, `element` the bytes of one element and `size`
// its code in a command word. The first `read_only` bytes are never written; `locked`: the rest only with the unlock open.
#[derive(Clone, Copy, Debug, PartialEq, Eq)]
pub struct Row {
    pub place: u32,
    pub bytes: u32,
    pub element: u32,
    pub size: u8,
    pub read_only: u32,
    pub locked: bool,
}

fn line(place: u32, bytes: u32, element: u32, size: u8, read_only: u32, locked: bool) -> Row
    ensures { result ≡ record { place = place; bytes = bytes; element = element; size = size; read_only = read_only; locked = locked } }
{
    Row {
        place,
        bytes,
        element,
        size,
        read_only,
        locked,
    }
}

// A space that the card lacks has no bytes.
pub fn row_of(space: u8) -> Row
    ensures { result ≡ row (space_of space) }
{
    match Space::from(space) {
        Space::Registers => line(0, Pointer::REGISTERS, 4, 2, 0, false),
        Space::Eeprom => line(65536, Pointer::EEPROM, 2, 1, 0x20, true),
        Space::Status => line(65664, Pointer::STATUS, 2, 1, 0, false),
        Space::Information => line(65696, Pointer::INFORMATION, 2, 1, 32, false),
        Space::Absent => line(0, 0, 1, 0, 0, false),
    }
}

// The line of a space, or that of its info area, which stands in no store.
pub fn area_row(info: bool, space: u8) -> Row
    ensures { result ≡ area_row info (space_of space) }
{
    if info {
        line(0, Pointer::INFO, 2, 1, 16, false)
    } else {
        row_of(space)
    }
}

// Whether the card lacks the space.
pub fn is_absent(space: u8) -> bool
    ensures { result ≡ is_absent (space_of space) }
{
    row_of(space).bytes == 0
}
