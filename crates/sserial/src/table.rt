// A card's process table: its entries, and the records that they point to.
ghost use Rattle.std.specs.Prelude.{◌≡◌, ◌+◌, ◌<◌, ◌≤◌, length, max};
ghost use Rattle.sserial.specs.Table.{pair_at, quad_at, nul_of, is_direction, record_at, stands_in};
ghost use Rattle.sserial.specs.Inside.{field_record, mode_record, entry_at};

// A field as its descriptor has it; any width, until the table is checked. `kind` is the data type, `minimum` and `maximum` are the bits
// that stand there, `unit` and `name` the places of the two strings.
#[derive(Clone, Copy, Debug, PartialEq, Eq)]
pub struct Field {
    pub width: u8,
    pub kind: u8,
    pub direction: u8,
    pub minimum: u32,
    pub maximum: u32,
    pub unit: usize,
    pub name: usize,
}

// What stands at a table's entry. Each of the four ends, breaks or lengthens a walk in its own way, so they are told apart.
#[derive(Clone, Copy, Debug, PartialEq, Eq)]
pub enum Entry {
    End,
    Unreadable,
    Mode,
    Field(Field),
}

// Read from the card, or written to it. A field of both directions stands in both.
#[derive(Clone, Copy, Debug, PartialEq, Eq)]
pub enum Direction {
    Inputs,
    Outputs,
}

fn pair_at(memory: &[u8], at: usize) -> u16
    requires { at + 2 ≤ length memory.now }
    ensures { (result ≡ pair_at memory.now at) × (result < 65536) }
{
    u16::from_le_bytes([memory[at], memory[at + 1]])
}

fn quad_at(memory: &[u8], at: usize) -> u32
    requires { at + 4 ≤ length memory.now }
    ensures { result ≡ quad_at memory.now at }
{
    u32::from_le_bytes([memory[at], memory[at + 1], memory[at + 2], memory[at + 3]])
}

// The place of the NUL that ends the string at `at`; past the end where it is not lent. No `Option`: inlined with one, or by an iterator,
// the loop carries a second counter, and a long unit costs half as much again.
fn nul_of(memory: &[u8], at: usize) -> usize
    ensures { (result ≡ nul_of memory.now at) × (result ≤ max at (length memory.now)) }
{
    for i in at..memory.len() {
        if memory[i] == 0 {
            return i;
        }
    }
    at.max(memory.len())
}

fn is_direction(d: u8) -> bool
    ensures { result ≡ is_direction d }
{
    (d == 0x00) | (d == 0x40) | (d == 0x80)
}

fn field_record(memory: &[u8], p: u16) -> Entry
    ensures { result ≡ field_record memory.now p }
{
    let p = p as usize;
    let unit = p + 14;
    let name = nul_of(memory, unit) + 1;
    if memory.len() <= nul_of(memory, name) {
        return Entry::Unreadable;
    }
    let kind = memory[p + 2];
    let direction = memory[p + 3];
    let listed = (kind < 8) & is_direction(direction);
    if !listed {
        return Entry::Unreadable;
    }
    Entry::Field(Field {
        width: memory[p + 1],
        kind,
        direction,
        minimum: quad_at(memory, p + 4),
        maximum: quad_at(memory, p + 8),
        unit,
        name,
    })
}

fn mode_record(memory: &[u8], p: u16) -> Entry
    ensures { result ≡ mode_record memory.now p }
{
    let p = p as usize;
    if memory.len() <= nul_of(memory, p + 4) {
        return Entry::Unreadable;
    }
    if memory[p + 2] < 2 {
        Entry::Mode
    } else {
        Entry::Unreadable
    }
}

fn record_at(memory: &[u8], p: u16) -> Entry
    ensures { result ≡ record_at memory.now p }
{
    let at = p as usize;
    if memory.len() <= at {
        return Entry::Unreadable;
    }
    match memory[at] {
        0xA0 => field_record(memory, p),
        0xB0 => mode_record(memory, p),
        _ => Entry::Unreadable,
    }
}

// What stands at the entry at `at`; unreadable too where the entry itself is not lent.
pub(crate) fn entry_at(memory: &[u8], at: usize) -> Entry
    ensures { result ≡ entry_at memory.now at }
{
    if memory.len() <= at {
        return Entry::Unreadable;
    }
    if memory.len() - at < 2 {
        return Entry::Unreadable;
    }
    match pair_at(memory, at) {
        0 => Entry::End,
        p => record_at(memory, p),
    }
}

pub(crate) fn stands_in(f: Field, d: Direction) -> bool
    ensures { result ≡ stands_in d f }
{
    match d {
        Direction::Inputs => (f.direction == 0x00) | (f.direction == 0x40),
        Direction::Outputs => (f.direction == 0x80) | (f.direction == 0x40),
    }
}
