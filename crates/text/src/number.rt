// Numbers and bytes as text.
ghost use Rattle.std.specs.Prelude.{◌≡◌, [], ◌∷◌, ◌/◌, ◌%◌, ◌^◌, ◌<◌};
ghost use Rattle.text.specs.Number.{digit, decimal, signed_decimal, hex_digit, hexadecimal, bytes_of_hex};
ghost use Rattle.text.specs.Room.{filled, put_at};

use crate::{least, put};

// A digit's code: 0 to 9, and A to F.
fn code(d: u8) -> u8
    requires { d < 16 }
    ensures { result ≡ hex_digit d }
{
    if d < 10 { 48 + d } else { 55 + d }
}

fn digit(out: &mut [u8], at: usize, d: u8) -> usize
    requires { d < 16 }
    ensures { filled result out.new ≡ put_at (hex_digit d ∷ []) at out.old }
{
    put(out, at, &[code(d)])
}

// The last digit's code.
fn last_code(n: u64) -> u8
    ensures { result ≡ digit (n % 10) }
{
    48 + (n % 10) as u8
}

// The digits are found from the last on, and how many there are is known only with the first. No number of 64 bits has more than 20.
pub fn decimal(out: &mut [u8], at: usize, n: u64) -> usize
    ensures { filled result out.new ≡ put_at (decimal n) at out.old }
{
    let mut room = [0u8; 20];
    let mut i: usize = 19;
    room[19] = last_code(n);
    let mut left = n / 10;
    while left != 0 {
        i -= 1;
        room[i] = last_code(left);
        left /= 10;
    }
    put(out, at, &room[i..])
}

// The number that 64 bits mean as two's complement.
pub fn signed(out: &mut [u8], at: usize, n: u64) -> usize
    ensures { filled result out.new ≡ put_at (signed_decimal n) at out.old }
{
    if n < 9223372036854775808 {
        return decimal(out, at, n);
    }
    let next = put(out, at, b"-");
    decimal(out, next, 18446744073709551615 - n + 1)
}

// The value of a hexadecimal digit, counted from the last.
fn digit_at(n: u64, k: usize) -> u8
    ensures { result ≡ n / 16 ^ k % 16 }
{
    if 15 < k {
        return 0;
    }
    ((n >> (4 * k)) % 16) as u8
}

// A number's last digits, so many.
pub fn hex(out: &mut [u8], at: usize, digits: usize, n: u64) -> usize
    ensures { filled result out.new ≡ put_at (hexadecimal digits n) at out.old }
{
    let mut next = least(at, out.len());
    for k in (0..digits).rev() {
        next = digit(out, next, digit_at(n, k));
    }
    next
}

// A byte as two digits, behind a space.
pub fn byte(out: &mut [u8], at: usize, b: u8) -> usize
    ensures { filled result out.new ≡ put_at (bytes_of_hex (b ∷ [])) at out.old }
{
    put(out, at, &[b' ', code(b / 16), code(b % 16)])
}

pub fn bytes(out: &mut [u8], at: usize, s: &[u8]) -> usize
    ensures { filled result out.new ≡ put_at (bytes_of_hex s.now) at out.old }
{
    let mut next = least(at, out.len());
    for &b in s {
        next = byte(out, next, b);
    }
    next
}
