// Readings of a card's fields, by the card's process table.
ghost use Rattle.std.specs.Prelude.{◌≡◌};
ghost use Rattle.sserial.specs.Table.{checked_at};
ghost use Rattle.panel.specs.Reading.{reading_listed};
ghost use Rattle.panel.specs.FieldReading.{field_reading};

use crate::reading;
use lbp16::Refusal;
use sserial::field;

// What a value of the index-th field of the table at this address reads, modes not counted. A table or an index that is refused
// has the table's own refusal.
pub fn field_reading(memory: &[u8], table: u16, index: u64, value: u64) -> Result<f32, Refusal>
    ensures { reading_listed result ≡ field_reading (checked_at memory.now table) index value }
{
    let f = field::field(memory, table, index)?;
    let kind = f.kind as u32;
    let width = f.width as u32;
    reading::reading(kind, width, value, f.minimum, f.maximum)
}
