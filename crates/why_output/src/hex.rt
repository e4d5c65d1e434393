// Hexadecimal text read into a room.
ghost use Rattle.std.specs.Prelude.{◌≡◌, ◌<◌, length, get_or, drop, MatchOption, MatchResult};
ghost use Rattle.text.specs.Find.{hex_value};
ghost use Rattle.why_output.specs.Hex.{is_blank, turn_at, hex_of, has_byte, Reads};

use text::find;

// No digit stands at the place, and one should.
#[derive(Clone, Copy, Debug, PartialEq, Eq)]
pub struct NoDigit {
    pub place: usize,
}

#[tactic(auto, using(std::proofs::lemmas::Bool::Decides::nat_tests), unfolding(crate::specs::Hex::is_blank))]
fn is_blank(c: u8) -> bool
    ensures { result ≡ is_blank c }
{
    matches!(c, b' ' | b'\t' | b'\n' | b'\r')
}

// The value of the digit at a place, where one stands there.
fn value_at(text: &[u8], i: usize) -> Option<u8>
    ensures { MatchOption result (hex_value (get_or text.now i 0) ≡ 16) (λ d. (d ≡ hex_value (get_or text.now i 0)) × (d < 16)) }
{
    let Some(&c) = text.get(i) else {
        return None;
    };
    find::hex_value(c)
}

fn digit_at(text: &[u8], i: usize) -> Result<u8, NoDigit>
    ensures { MatchResult result
        (λ d. (d ≡ hex_value (get_or text.now i 0)) × (d < 16))
        (λ e. (e.place ≡ i) × (hex_value (get_or text.now i 0) ≡ 16)) }
{
    let value = value_at(text, i);
    match value {
        Some(d) => Ok(d),
        None => Err(NoDigit { place: i }),
    }
}

// What stands at a place of the text: a blank, or a byte.
fn turn_at(text: &[u8], i: usize) -> Result<Option<u8>, NoDigit>
    requires { i < length text.now }
    ensures { result ≡ turn_at i (drop i text.now) }
{
    if is_blank(text[i]) {
        return Ok(None);
    }
    let high = digit_at(text, i)?;
    let low = digit_at(text, i + 1)?;
    Ok(Some(16 * high + low))
}

// So many bytes, at the front of the room, as far as it has space for them.
pub(crate) fn read(text: &[u8], room: &mut [u8]) -> Result<usize, NoDigit>
    ensures { Reads (hex_of text.now) result room.old room.new }
{
    let mut n: usize = 0;
    let mut i: usize = 0;
    // How far a step goes is known only once it is read.
    while i < text.len() {
        let turn = turn_at(text, i)?;
        match turn {
            None => {
                i += 1;
            }
            Some(b) => {
                n = text::put(room, n, &[b]);
                i += 2;
            }
        }
    }
    Ok(n)
}

// Whether the bytes may be meant as such a text: it can be read, and a byte stands in it.
pub(crate) fn looks_hex(input: &[u8]) -> bool
    ensures { result ≡ has_byte (hex_of input.now) }
{
    let mut room = [0u8; 1];
    let found = read(input, &mut room);
    match found {
        Ok(n) => 0 < n,
        Err(_) => false,
    }
}
