// A field's value: 64 bits, of a signed field sign-extended.
ghost use Rattle.std.specs.Prelude.{◌≡◌, ◌-◌, ◌^◌, ◌<◌};
ghost use Rattle.sserial.specs.Layout.{is_signed, value_of, bits_of, in_range};
ghost use Rattle.sserial.specs.Inside.{Wide};

use crate::bits;
use crate::table::Field;

fn is_signed(f: Field) -> bool
    ensures { result ≡ is_signed f }
{
    (f.kind == 3) | (f.kind == 5)
}

// Two to the width less one: half of what the field's bits can count.
fn half_of(f: Field) -> u64
    requires { Wide f }
    ensures { result ≡ 2 ^ (f.width - 1) }
{
    let width = f.width as usize;
    bits::power(width - 1)
}

pub(crate) fn bits_of(f: Field, value: u64) -> u64
    requires { Wide f }
    ensures { result ≡ bits_of f value }
{
    let half = half_of(f);
    value % half + value / half % 2 * half
}

pub(crate) fn in_range(f: Field, value: u64) -> bool
    requires { Wide f }
    ensures { result ≡ in_range f value }
{
    let half = half_of(f);
    if is_signed(f) {
        (value < half) | (18446744073709551615 - half < value)
    } else {
        value / half < 2
    }
}

pub(crate) fn value_of(f: Field, b: u64) -> u64
    requires { Wide f × (b < 2 ^ f.width) }
    ensures { result ≡ value_of f b }
{
    let half = half_of(f);
    let negative = is_signed(f) & (half <= b);
    if negative {
        b - half + (18446744073709551615 - half) + 1
    } else {
        b
    }
}
