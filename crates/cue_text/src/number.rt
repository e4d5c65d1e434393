// Words as numbers.
ghost use Rattle.std.specs.Prelude.{◌≡◌, ◌≤◌, ◌<◌, MatchOption};
ghost use Rattle.text.specs.Find.{hex_value};
ghost use Rattle.cue_text.specs.Numbers.{digits_value, up_to, is_hex, space_of, address_of, value_of};
ghost use Rattle.cue_text.specs.Inside.{most_held};

use text::find;

// A digit's value where it is one of the base's.
fn digit_of(c: u8, base: u32) -> Option<u32>
    requires { base ≤ 16 }
    ensures { MatchOption result (base ≤ hex_value c) (λ d. (d ≡ hex_value c) × (d < base)) }
{
    // 16 is a digit of no base: one test does for both.
    let d = find::hex_value(c).unwrap_or(16) as u32;
    if d < base { Some(d) } else { None }
}

// No number that 32 bits do not hold is any word's.
fn digits(word: &[u8], base: u32) -> Option<u32>
    requires { (1 ≤ base) × (base ≤ 16) }
    ensures { result ≡ up_to most_held (digits_value base word.now) }
{
    let mut n: u32 = 0;
    for &c in word {
        let d = digit_of(c, base)?;
        n = base.checked_mul(n)?.checked_add(d)?;
    }
    if word.is_empty() { None } else { Some(n) }
}

// Whether a word begins with 0x or 0X.
fn is_hex(word: &[u8]) -> bool
    ensures { result ≡ is_hex word.now }
{
    if word.len() < 2 {
        return false;
    }
    (word[0] == b'0') & ((word[1] == b'x') | (word[1] == b'X'))
}

pub(crate) fn value_of(word: &[u8]) -> Option<u32>
    ensures { result ≡ value_of word.now }
{
    if is_hex(word) {
        return digits(find::rest(word, 2), 16);
    }
    digits(word, 10)
}

pub(crate) fn address_of(word: &[u8]) -> Option<u16>
    ensures { result ≡ address_of word.now }
{
    u16::try_from(value_of(word)?).ok()
}

// A space by its name, or by its number.
pub(crate) fn space_of(word: &[u8]) -> Option<u8>
    ensures { result ≡ space_of word.now }
{
    if find::same(word, b"registers") {
        return Some(0);
    }
    if find::same(word, b"eeprom") {
        return Some(2);
    }
    if find::same(word, b"status") {
        return Some(6);
    }
    if find::same(word, b"information") {
        return Some(7);
    }
    u8::try_from(value_of(word)?).ok()
}
