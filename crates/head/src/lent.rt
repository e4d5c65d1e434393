// What C lends as plain numbers: pointers back, fields there and back.
ghost use Rattle.std.specs.Prelude.{◌≡◌, not, ◌||◌, length, eqb};
ghost use Rattle.lbp16.specs.Pointer.{lent_pointers};
ghost use Rattle.lbp16.specs.Word.{bit};
ghost use Rattle.head.specs.Exports.{bytes_of_fields, fields_from, bad_flags};

use lbp16::pointer::Pointers;
use lbp16::word::Fields;

pub(crate) fn put_pointers(p: Pointers, ps: &mut [u32])
    requires { length ps.old ≡ 8 }
    ensures { ps.new ≡ lent_pointers p }
{
    ps.copy_from_slice(&p.listed());
}

pub(crate) fn flag(set: bool) -> u8
    ensures { result ≡ bit set }
{
    u8::from(set)
}

pub(crate) fn put_fields(f: Fields, bytes: &mut [u8])
    requires { length bytes.old ≡ 7 }
    ensures { bytes.new ≡ bytes_of_fields f }
{
    if let Some(room) = bytes.as_mut_array() {
        *room = [
            flag(f.write),
            flag(f.address),
            flag(f.info),
            f.space,
            f.size,
            flag(f.increment),
            f.count,
        ];
    }
}

// Another length than seven, or a bad flag.
pub(crate) fn bad_fields(bytes: &[u8]) -> bool
    ensures { result ≡ (not (eqb (length bytes.now) 7) || bad_flags bytes.now) }
{
    if bytes.len() != 7 {
        return true;
    }
    (1 < bytes[0]) | (1 < bytes[1]) | (1 < bytes[2]) | (1 < bytes[5])
}

pub(crate) fn fields_from(bytes: &[u8]) -> Fields
    requires { length bytes.now ≡ 7 }
    ensures { result ≡ fields_from bytes.now }
{
    Fields {
        write: bytes[0] == 1,
        address: bytes[1] == 1,
        info: bytes[2] == 1,
        space: bytes[3],
        size: bytes[4],
        increment: bytes[5] == 1,
        count: bytes[6],
    }
}
