// A table's check: its entries from the first to the 0 entry, with the fields and bits each way.
ghost use Rattle.std.specs.Prelude.{◌≡◌, IfSome};
ghost use Rattle.sserial.specs.Table.{checked_at};
ghost use Rattle.sserial.specs.Calls.{counted, table_listed};
ghost use Rattle.sserial.specs.Inside.{Small, Within, sum_with, sums_with, sums_more, sums_answer};

use crate::table;
use crate::table::{Direction, Entry, Field};
use lbp16::{Refusal, Rule};

// How many fields stand in a direction, and how many bits they take.
#[derive(Clone, Copy, Debug, PartialEq, Eq)]
pub struct Sum {
    pub fields: usize,
    pub bits: usize,
}

// The fields so far.
#[derive(Clone, Copy, Debug, PartialEq, Eq)]
pub struct Sums {
    pub inputs: Sum,
    pub outputs: Sum,
}

// How many fields a table has each way.
#[derive(Clone, Copy, Debug, PartialEq, Eq)]
pub struct FieldCounts {
    pub inputs: usize,
    pub outputs: usize,
}

fn sum_with(s: Sum, f: Field, d: Direction) -> Sum
    requires { Small s }
    ensures { result ≡ sum_with d s f }
{
    if table::stands_in(f, d) {
        let width = f.width as usize;
        Sum {
            fields: s.fields + 1,
            bits: s.bits + width,
        }
    } else {
        s
    }
}

// The sums with a field more, where it has a width that a field may have, and room.
fn sums_with(s: Sums, f: Field) -> Option<Sums>
    requires { Within s }
    ensures { result ≡ sums_with s f }
{
    let inputs = sum_with(s.inputs, f, Direction::Inputs);
    let outputs = sum_with(s.outputs, f, Direction::Outputs);
    if (f.width == 0) | (64 < f.width) | (96 < inputs.bits) | (96 < outputs.bits) {
        return None;
    }
    Some(Sums { inputs, outputs })
}

// No field mends what was over before.
fn sums_more(sums: Option<Sums>, f: Field) -> Option<Sums>
    requires { IfSome sums Within }
    ensures { result ≡ sums_more sums f }
{
    sums_with(sums?, f)
}

fn answered(sums: Option<Sums>) -> Result<FieldCounts, Refusal>
    ensures { table_listed result ≡ sums_answer sums }
{
    match sums {
        None => Err(Rule::FieldWidth.at(0)),
        Some(s) => Ok(FieldCounts {
            inputs: s.inputs.fields,
            outputs: s.outputs.fields,
        }),
    }
}

// How many fields the table at this address has each way. 41 holds anywhere in the table before 42 does.
pub fn count_fields(memory: &[u8], table: u16) -> Result<FieldCounts, Refusal>
    ensures { table_listed result ≡ counted (checked_at memory.now table) }
{
    let mut at = table as usize;
    let mut s = Some(Sums {
        inputs: Sum { fields: 0, bits: 0 },
        outputs: Sum { fields: 0, bits: 0 },
    });
    // Which entry ends the walk decides the answer, so the entries themselves are walked here.
    loop {
        let entry = table::entry_at(memory, at);
        match entry {
            Entry::End => return answered(s),
            Entry::Unreadable => {
                return Err(Rule::Table.at(0));
            }
            Entry::Mode => {}
            Entry::Field(f) => s = sums_more(s, f),
        }
        at += 2;
    }
}
