// The header of an SPI burst, for C.
ghost use Rattle.std.specs.Prelude.{◌≡◌, false, not, ◌||◌, min, length, eqb};
ghost use Rattle.spi.specs.Spi.{header_written};
ghost use Rattle.head.specs.Exports.{given, fields_left, word_given};
ghost use Rattle.head.specs.SpiExports.{header_numbers, header_from, export_header, bad_header, export_header_word};

use crate::lent;
use spi::Header;

fn put_header(h: Header, fields: &mut [u32])
    requires { length fields.old ≡ 4 }
    ensures { fields.new ≡ header_numbers h }
{
    if let Some(room) = fields.as_mut_array() {
        *room = [
            h.address as u32,
            h.command as u32,
            lent::flag(h.increment) as u32,
            h.count as u32,
        ];
    }
}

// Another length than four, or a bad address or increment.
fn bad_header(fields: &[u32]) -> bool
    ensures { result ≡ (not (eqb (length fields.now) 4) || bad_header fields.now) }
{
    if fields.len() != 4 {
        return true;
    }
    (65535 < fields[0]) | (1 < fields[2])
}

// A number that a byte can't hold becomes 255.
fn byte_of(n: u32) -> u8
    ensures { result ≡ min n 255 }
{
    if n < 255 { n as u8 } else { 255 }
}

// A header that is written, or refused, as one with these numbers: 255 is no command and no count, and neither is what is above.
fn header_from(fields: &[u32]) -> Header
    requires { (length fields.now ≡ 4) × (bad_header fields.now ≡ false) }
    ensures { header_written result ≡ header_written (header_from fields.now) }
{
    Header {
        address: fields[0] as u16,
        command: byte_of(fields[1]),
        increment: fields[2] == 1,
        count: byte_of(fields[3]),
    }
}

// The fields of a burst's header, as four numbers.
#[unsafe(no_mangle)]
pub extern "C" fn head_header(word: u32, fields: &mut [u32]) -> u32
    ensures { fields_left result fields.new ≡ export_header word fields.old }
{
    if fields.len() != 4 {
        return 13;
    }
    put_header(spi::header_of(word), fields);
    0
}

// The header of four such numbers; `word` is written only if accepted.
#[unsafe(no_mangle)]
pub extern "C" fn head_header_word(fields: &[u32], word: &mut u32) -> u32
    ensures { given result word.new ≡ word_given (export_header_word fields.now) word.old }
{
    if bad_header(fields) {
        return 13;
    }
    let written = spi::header_word(header_from(fields));
    match written {
        Ok(w) => {
            *word = w;
            0
        }
        Err(r) => r.rule.number(),
    }
}
