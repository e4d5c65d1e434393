// Daughter card fields. `table` is the table's address in the card's memory; direction 0 are the inputs, 1 the outputs.
ghost use Rattle.std.specs.Prelude.{◌≡◌, ◌%◌, ◌^◌, length};
ghost use Rattle.sserial.specs.Table.{checked_at};
ghost use Rattle.sserial.specs.Calls.{call_listed};
ghost use Rattle.head.specs.Exports.{number_of};
ghost use Rattle.head.specs.SserialExports.{or_refused, direction_of, field_words, table_left};
ghost use Rattle.head.specs.SserialExports.{export_table, call_left, export_field, export_pack, export_unpack};

use crate::numbers::numbers_of;
use lbp16::Refusal;
use sserial::table::{Direction, Field};
use sserial::{call, count, field};

fn call_number(answer: Result<(), Refusal>) -> u32
    ensures { result ≡ number_of (call_listed answer) }
{
    match answer {
        Ok(()) => 0,
        Err(r) => r.rule.number(),
    }
}

// The table's refusal, or else 40.
fn table_or_40(memory: &[u8], table: u16) -> u32
    ensures { result ≡ number_of (or_refused (checked_at memory.now table)) }
{
    let answer = count::count_fields(memory, table);
    match answer {
        Ok(_) => 40,
        Err(r) => r.rule.number(),
    }
}

fn direction_of(direction: u32) -> Direction
    ensures { result ≡ direction_of direction }
{
    if direction == 0 {
        Direction::Inputs
    } else {
        Direction::Outputs
    }
}

fn low_word(place: usize) -> u32
    ensures { result ≡ place % 2 ^ 32 }
{
    (place % 4294967296) as u32
}

fn put_field(f: Field, words: &mut [u32])
    requires { length words.old ≡ 7 }
    ensures { words.new ≡ field_words f }
{
    words[0] = f.width as u32;
    words[1] = f.kind as u32;
    words[2] = f.direction as u32;
    words[3] = f.minimum;
    words[4] = f.maximum;
    words[5] = low_word(f.unit);
    words[6] = low_word(f.name);
}

// How many fields the table has each way; both 0 if refused.
#[unsafe(no_mangle)]
pub extern "C" fn head_table(memory: &[u8], table: u16, inputs: &mut u64, outputs: &mut u64) -> u32
    ensures { table_left result inputs.new outputs.new ≡ export_table (checked_at memory.now table) }
{
    let given = numbers_of(count::count_fields(memory, table));
    *inputs = given.1;
    *outputs = given.2;
    given.0
}

// The index-th field, as seven words; they are written only if accepted.
#[unsafe(no_mangle)]
pub extern "C" fn head_field(memory: &[u8], table: u16, index: u64, field: &mut [u32]) -> u32
    ensures { call_left result field.new ≡ export_field (checked_at memory.now table) index field.old }
{
    if field.len() != 7 {
        return table_or_40(memory, table);
    }
    let answer = field::field(memory, table, index);
    match answer {
        Ok(f) => {
            put_field(f, field);
            0
        }
        Err(r) => r.rule.number(),
    }
}

// Packs one direction of one channel: a value for each of its fields. The registers of all other channels stay.
#[unsafe(no_mangle)]
pub extern "C" fn head_pack(
    memory: &[u8],
    table: u16,
    direction: u32,
    channel: u32,
    values: &[u64],
    registers: &mut [u32],
) -> u32
    ensures { call_left result registers.new
        ≡ export_pack (checked_at memory.now table) direction channel values.now registers.old }
{
    if 1 < direction {
        return table_or_40(memory, table);
    }
    let d = direction_of(direction);
    call_number(call::pack(memory, table, d, channel, values, registers))
}

// Unpacks one direction of one channel.
#[unsafe(no_mangle)]
pub extern "C" fn head_unpack(
    memory: &[u8],
    table: u16,
    direction: u32,
    channel: u32,
    registers: &[u32],
    values: &mut [u64],
) -> u32
    ensures { call_left result values.new
        ≡ export_unpack (checked_at memory.now table) direction channel registers.now values.old }
{
    if 1 < direction {
        return table_or_40(memory, table);
    }
    let d = direction_of(direction);
    call_number(call::unpack(memory, table, d, channel, registers, values))
}
