// A table's fields one by one.
ghost use Rattle.std.specs.Prelude.{◌≡◌, slice_get};
ghost use Rattle.sserial.specs.Table.{checked_at, directed};
ghost use Rattle.sserial.specs.Calls.{indexed, field_listed};
ghost use Rattle.sserial.specs.Inside.{fields_met, fields_ahead, directed_ahead};

use crate::table::{Direction, Entry, Field};
use crate::{count, table};
use lbp16::{Refusal, Rule};

// The fields from an entry on, up to the table's end or to an entry that is unreadable.
#[derive(Clone, Copy)]
pub(crate) struct Fields<'a> {
    pub memory: &'a [u8],
    pub at: usize,
}

impl<'a> Fields<'a> {
    fn new(memory: &'a [u8], table: u16) -> Self
        ensures { fields_ahead result ≡ fields_met memory.now table }
    {
        Fields {
            memory,
            at: table as usize,
        }
    }
}

impl<'a> Iterator for Fields<'a> {
    ghost use Rattle.std.specs.Iterator.{YieldsFirst, item_count};
    ghost use Rattle.sserial.specs.Inside.{fields_ahead};

    type Item = Field;

    ghost next_gives = { YieldsFirst fields_ahead };

    ghost remaining = { item_count fields_ahead };

    fn next(&mut self) -> Option<Field> {
        // A mode stands between two fields, so a step may pass several entries.
        loop {
            let entry = table::entry_at(self.memory, self.at);
            match entry {
                Entry::End | Entry::Unreadable => return None,
                Entry::Mode => self.at += 2,
                Entry::Field(f) => {
                    self.at += 2;
                    return Some(f);
                }
            }
        }
    }
}

// Those of one direction.
#[derive(Clone, Copy)]
pub(crate) struct Directed<'a> {
    pub fields: Fields<'a>,
    pub direction: Direction,
}

impl<'a> Directed<'a> {
    pub(crate) fn new(memory: &'a [u8], table: u16, direction: Direction) -> Self
        ensures { directed_ahead result ≡ directed direction (fields_met memory.now table) }
    {
        Directed {
            fields: Fields::new(memory, table),
            direction,
        }
    }
}

impl<'a> Iterator for Directed<'a> {
    ghost use Rattle.std.specs.Iterator.{YieldsFirst, item_count};
    ghost use Rattle.sserial.specs.Inside.{directed_ahead};

    type Item = Field;

    ghost next_gives = { YieldsFirst directed_ahead };

    ghost remaining = { item_count directed_ahead };

    // Inlined, so that a walk keeps its place in registers, and packing needs less stack.
    #[inline(always)]
    fn next(&mut self) -> Option<Field> {
        while let Some(f) = self.fields.next() {
            if table::stands_in(f, self.direction) {
                return Some(f);
            }
        }
        None
    }
}

fn nth(memory: &[u8], table: u16, index: u64) -> Option<Field>
    ensures { result ≡ slice_get (fields_met memory.now table) index }
{
    Fields::new(memory, table).nth(index as usize)
}

// The index-th field of the table at this address, modes not counted. 40 for an index past the last.
pub fn field(memory: &[u8], table: u16, index: u64) -> Result<Field, Refusal>
    ensures { field_listed result ≡ indexed (checked_at memory.now table) index }
{
    count::count_fields(memory, table)?;
    match nth(memory, table, index) {
        Some(f) => Ok(f),
        None => Err(Rule::Field.at(0)),
    }
}
