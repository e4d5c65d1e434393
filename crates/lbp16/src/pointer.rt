// A space's address pointer, and those that a card keeps.
ghost use Rattle.std.specs.Prelude.{cond, ◌≡◌, ◌≤◌, ltb, get_or};
ghost use Rattle.lbp16.specs.Space.{space_of};
ghost use Rattle.lbp16.specs.Pointer.{advanced, fresh_spaces, fresh, of_space, with_space, pointer_of, with_pointer, above_size};
ghost use Rattle.lbp16.specs.Pointer.{spaces_at, pointers_of, lent_pointers, space_slot, slot_of};

use crate::space::Space;

// Wider than the sixteen bits of an address, since it may stand past the end of a space.
#[derive(Clone, Copy, Debug, PartialEq, Eq)]
pub struct Pointer {
    pub at: u32,
}

impl Pointer {
    pub const REGISTERS: u32 = 65536;

    pub const EEPROM: u32 = 128;

    pub const STATUS: u32 = 32;

    pub const INFORMATION: u32 = 32;

    // of an info area
    pub const INFO: u32 = 16;

    pub fn new(at: u32) -> Self
        ensures { result.at ≡ at }
    {
        Pointer { at }
    }

    // The address plus the bytes moved; a sum past the largest u32 stays there and never wraps.
    pub fn advance(self, bytes: u32) -> Self
        ensures { result.at ≡ advanced self.at bytes }
    {
        let at = self.at;
        if bytes <= 4294967295 - at {
            Pointer { at: at + bytes }
        } else {
            Pointer { at: 4294967295 }
        }
    }
}

// One pointer for each space.
#[derive(Clone, Copy, Debug, PartialEq, Eq)]
pub struct SpacePointers {
    pub registers: Pointer,
    pub eeprom: Pointer,
    pub status: Pointer,
    pub information: Pointer,
}

impl SpacePointers {
    // Those of spaces 0, 2, 6 and 7, from `at` on.
    fn from_lent(lent: &[u32], at: usize) -> Self
        requires { at ≤ 4 }
        ensures { result ≡ spaces_at lent.now at }
    {
        SpacePointers {
            registers: Pointer::new(at_slot(lent, at)),
            eeprom: Pointer::new(at_slot(lent, at + 1)),
            status: Pointer::new(at_slot(lent, at + 2)),
            information: Pointer::new(at_slot(lent, at + 3)),
        }
    }

    fn fresh() -> Self
        ensures { result ≡ fresh_spaces }
    {
        SpacePointers {
            registers: Pointer::new(0),
            eeprom: Pointer::new(0),
            status: Pointer::new(0),
            information: Pointer::new(0),
        }
    }

    // The pointer of a space; 0 for a space that the card lacks.
    pub fn of(self, space: u8) -> Pointer
        ensures { result.at ≡ of_space self (space_of space) }
    {
        match Space::from(space) {
            Space::Registers => self.registers,
            Space::Eeprom => self.eeprom,
            Space::Status => self.status,
            Space::Information => self.information,
            Space::Absent => Pointer::new(0),
        }
    }

    // The same pointers but for that of one space.
    pub fn with(self, space: u8, p: Pointer) -> Self
        ensures { result ≡ with_space self (space_of space) p.at }
    {
        let mut next = self;
        match Space::from(space) {
            Space::Registers => next.registers = p,
            Space::Eeprom => next.eeprom = p,
            Space::Status => next.status = p,
            Space::Information => next.information = p,
            Space::Absent => {}
        }
        next
    }
}

// Those of the spaces, and those of their info areas.
#[derive(Clone, Copy, Debug, PartialEq, Eq)]
pub struct Pointers {
    pub plain: SpacePointers,
    pub info: SpacePointers,
}

impl Pointers {
    // The pointers of a fresh card.
    pub fn fresh() -> Self
        ensures { result ≡ fresh }
    {
        Pointers {
            plain: SpacePointers::fresh(),
            info: SpacePointers::fresh(),
        }
    }

    // Eight pointers that stand one after the other; one that is missing counts as 0.
    pub fn from_lent(lent: &[u32]) -> Self
        ensures { result ≡ pointers_of lent.now }
    {
        Pointers {
            plain: SpacePointers::from_lent(lent, 0),
            info: SpacePointers::from_lent(lent, 4),
        }
    }

    pub fn listed(self) -> [u32; 8]
        ensures { result ≡ lent_pointers self }
    {
        let plain = self.plain;
        let info = self.info;
        [
            plain.registers.at,
            plain.eeprom.at,
            plain.status.at,
            plain.information.at,
            info.registers.at,
            info.eeprom.at,
            info.status.at,
            info.information.at,
        ]
    }

    // The pointer of a space or of its info area.
    pub fn of(self, info: bool, space: u8) -> Pointer
        ensures { result.at ≡ pointer_of self info (space_of space) }
    {
        if info {
            self.info.of(space)
        } else {
            self.plain.of(space)
        }
    }

    // The same pointers but for that one.
    pub fn with(self, info: bool, space: u8, p: Pointer) -> Self
        ensures { result ≡ with_pointer self info (space_of space) p.at }
    {
        let mut next = self;
        if info {
            next.info = self.info.with(space, p);
        } else {
            next.plain = self.plain.with(space, p);
        }
        next
    }

    // Whether some pointer stands above its space's size or above that of an info area.
    pub fn above_size(self) -> bool
        ensures { result ≡ above_size self }
    {
        let plain = self.plain;
        let info = self.info;
        ((Pointer::REGISTERS < plain.registers.at)
            | (Pointer::EEPROM < plain.eeprom.at)
            | (Pointer::STATUS < plain.status.at)
            | (Pointer::INFORMATION < plain.information.at))
            | ((Pointer::INFO < info.registers.at)
                | (Pointer::INFO < info.eeprom.at)
                | (Pointer::INFO < info.status.at)
                | (Pointer::INFO < info.information.at))
    }
}

fn space_slot(space: u8) -> usize
    ensures { (result ≡ space_slot (space_of space)) × (result ≤ 8) }
{
    match Space::from(space) {
        Space::Registers => 0,
        Space::Eeprom => 1,
        Space::Status => 2,
        Space::Information => 3,
        Space::Absent => 8,
    }
}

// Where the pointer of a space, or of its info area, stands among the eight.
pub fn slot_of(info: bool, space: u8) -> usize
    ensures { result ≡ slot_of info (space_of space) }
{
    let slot = space_slot(space);
    if info { slot + 4 } else { slot }
}

// The number at a slot; 0 where the list ends before it.
pub fn at_slot(lent: &[u32], slot: usize) -> u32
    ensures { result ≡ get_or lent.now slot 0 }
{
    lent.get(slot).copied().unwrap_or(0)
}

// The pointer at such a slot; 0 at that of a space that the card lacks.
pub fn pointer_in(lent: &[u32], slot: usize) -> u32
    ensures { result ≡ cond (ltb slot 8) (get_or lent.now slot 0) 0 }
{
    if slot < 8 { at_slot(lent, slot) } else { 0 }
}
