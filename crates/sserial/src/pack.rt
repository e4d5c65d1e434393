// The fields of one direction, packed into three words and read back.
ghost use Rattle.std.specs.Prelude.{◌≡◌, ◌^◌, length, cond, Some, None};
ghost use Rattle.sserial.specs.Layout.{joined, words_of, packed, unpacked, fitting};
ghost use Rattle.sserial.specs.Inside.{Each, Packable, directed_ahead};

use crate::field::Directed;
use crate::{bits, value};

// The values as three words, if each is in its field's range.
pub(crate) fn pack_values(fields: Directed, values: &[u64]) -> Option<[u32; 3]>
    requires { Packable (directed_ahead fields) (length values.now) }
    ensures { result ≡ cond (fitting (directed_ahead fields.entry) values.now)
        (Some (words_of 3 (packed (directed_ahead fields.entry) values.now))) None }
{
    let mut fields = fields;
    let mut words = [0u32; 3];
    let mut low: usize = 0;
    for &v in values {
        let f = fields.next()?;
        if !value::in_range(f, v) {
            return None;
        }
        let width = f.width as usize;
        let more = bits::put(words, low, width, value::bits_of(f, v));
        words = more;
        low += width;
    }
    Some(words)
}

pub(crate) fn read(fields: Directed, words: [u32; 3], values: &mut [u64])
    requires { Packable (directed_ahead fields) (length values.old) × Each (2 ^ 32) words }
    ensures { values.new ≡ unpacked (directed_ahead fields.entry) (joined words) }
{
    let mut fields = fields;
    let mut low: usize = 0;
    for v in values {
        // There is a field for each value, so this is not met.
        let Some(f) = fields.next() else {
            return;
        };
        let width = f.width as usize;
        *v = value::value_of(f, bits::get(words, low, width));
        low += width;
    }
}
