// One direction of one channel, packed and unpacked. The registers lent are three words for each of eight channels.
ghost use Rattle.std.specs.Prelude.{◌≡◌};
ghost use Rattle.sserial.specs.Table.{checked_at};
ghost use Rattle.sserial.specs.Calls.{no_channel, packed_by, packed_to, unpacked_by, unpacked_to, called};
ghost use Rattle.sserial.specs.Inside.{Packable, directed_ahead, chosen};

use crate::count::FieldCounts;
use crate::field::Directed;
use crate::table::Direction;
use crate::{channels, count, pack};
use lbp16::{Refusal, Rule};

fn no_channel(channel: u32, registers: &[u32]) -> bool
    ensures { result ≡ no_channel channel registers.now }
{
    (7 < channel) | (registers.len() != 24)
}

fn counted_in(d: Direction, counts: FieldCounts) -> usize
    ensures { result ≡ chosen d counts.inputs counts.outputs }
{
    match d {
        Direction::Inputs => counts.inputs,
        Direction::Outputs => counts.outputs,
    }
}

fn pack_fields(
    fields: Directed,
    n: usize,
    channel: u32,
    values: &[u64],
    registers: &mut [u32],
) -> Result<(), Refusal>
    requires { Packable (directed_ahead fields) n }
    ensures { called result registers.new
        ≡ packed_by (directed_ahead fields.entry) channel values.now registers.old }
{
    if no_channel(channel, registers) || values.len() != n {
        return Err(Rule::Field.at(0));
    }
    let Some(words) = pack::pack_values(fields, values) else {
        return Err(Rule::Field.at(0));
    };
    let all = channels::channels_of(registers);
    let next = channels::with_channel(all, channel as usize, words);
    channels::put_channels(next, registers);
    Ok(())
}

fn unpack_fields(
    fields: Directed,
    n: usize,
    channel: u32,
    registers: &[u32],
    values: &mut [u64],
) -> Result<(), Refusal>
    requires { Packable (directed_ahead fields) n }
    ensures { called result values.new
        ≡ unpacked_by (directed_ahead fields.entry) channel registers.now values.old }
{
    if no_channel(channel, registers) || values.len() != n {
        return Err(Rule::Field.at(0));
    }
    let all = channels::channels_of(registers);
    pack::read(fields, all[channel as usize], values);
    Ok(())
}

// Packs one value for each field of the direction into the channel's registers; the other channels stay.
pub fn pack(
    memory: &[u8],
    table: u16,
    d: Direction,
    channel: u32,
    values: &[u64],
    registers: &mut [u32],
) -> Result<(), Refusal>
    ensures { called result registers.new
        ≡ packed_to (checked_at memory.now table) d channel values.now registers.old }
{
    let counts = count::count_fields(memory, table)?;
    let fields = Directed::new(memory, table, d);
    pack_fields(fields, counted_in(d, counts), channel, values, registers)
}

// Unpacks the value of each field of the direction from the channel's registers.
pub fn unpack(
    memory: &[u8],
    table: u16,
    d: Direction,
    channel: u32,
    registers: &[u32],
    values: &mut [u64],
) -> Result<(), Refusal>
    ensures { called result values.new
        ≡ unpacked_to (checked_at memory.now table) d channel registers.now values.old }
{
    let counts = count::count_fields(memory, table)?;
    let fields = Directed::new(memory, table, d);
    unpack_fields(fields, counted_in(d, counts), channel, registers, values)
}
