// The command word: sixteen bits as fields, and fields as sixteen bits.
ghost use Rattle.std.specs.Prelude.{◌≡◌, ◌*◌, ◌≤◌};
ghost use Rattle.lbp16.specs.Word.{bit, fields_of, out_of_range, written, listed};

use crate::{Refusal, Rule};

// The size code 0, 1, 2, 3 stands for elements of 1, 2, 4, 8 bytes.
#[derive(Clone, Copy, Debug, PartialEq, Eq)]
pub struct Fields {
    pub write: bool,
    pub address: bool,
    pub info: bool,
    pub space: u8,
    pub size: u8,
    pub increment: bool,
    pub count: u8,
}

// Every word has fields.
pub fn fields_of(word: u16) -> Fields
    ensures { result ≡ fields_of word }
{
    Fields {
        write: word / 32768 % 2 == 1,
        address: word / 16384 % 2 == 1,
        info: word / 8192 % 2 == 1,
        space: (word / 1024 % 8) as u8,
        size: (word / 256 % 4) as u8,
        increment: word / 128 % 2 == 1,
        count: (word % 128) as u8,
    }
}

fn weighed(flag: bool, weight: u16) -> u16
    ensures { (result ≡ bit flag * weight) × (result ≤ weight) }
{
    u16::from(flag) * weight
}

fn out_of_range(f: Fields) -> bool
    ensures { result ≡ out_of_range f }
{
    (7 < f.space) | (3 < f.size) | (127 < f.count)
}

// Refused with 13 where a field is out of range.
pub fn word_of(f: Fields) -> Result<u16, Refusal>
    ensures { listed result ≡ written f }
{
    if out_of_range(f) {
        return Err(Rule::WordField.at(0));
    }
    let write = weighed(f.write, 32768);
    let address = weighed(f.address, 16384);
    let info = weighed(f.info, 8192);
    let increment = weighed(f.increment, 128);
    let space = f.space as u16;
    let size = f.size as u16;
    let count = f.count as u16;
    Ok(write + address + info + space * 1024 + size * 256 + increment + count)
}
