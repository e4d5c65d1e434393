// Names. A text's names are kept as a number each, so that a use of one costs no more than all the names' bytes.
ghost use Rattle.std.specs.Prelude.{◌≡◌, not, ◌||◌, ◌<◌, eqb, length};
ghost use Rattle.cue_text.specs.Numbers.{space_of, address_of, is_letter, is_name_byte, all_name_bytes, starts_with_letter, is_keyword, is_name};
ghost use Rattle.cue_text.specs.Text.{place_by, place_of, is_known, most_names};
ghost use Rattle.cue_text.specs.Inside.{located, stands, defined_at, near, far, kept_near, kept, name_at, names_at};

use crate::word::Word;
use crate::{number, word};
use text::find;

// Where a line reads or writes.
#[derive(Clone, Copy, Debug, PartialEq, Eq)]
pub(crate) struct Located {
    pub(crate) space: u8,
    pub(crate) address: u16,
}

// The most names that a text may define.
pub(crate) const MOST_NAMES: usize = 1000;

// A space and an address by their words.
pub(crate) fn place_by(space: &[u8], address: &[u8]) -> Option<Located>
    ensures { result ≡ located (place_by (space_of space.now) (address_of address.now)) }
{
    Some(Located {
        space: number::space_of(space)?,
        address: number::address_of(address)?,
    })
}

// A name is kept as its place in the text, its bytes less one, its space and its address: 39, 5, 3 and 16 bits. The few that do not fit are
// kept as their place alone, and read again from there.
const NEAR: usize = 549755813888;

const FAR: usize = 9223372036854775808;

fn kept_near(at: usize, n: usize, p: Located) -> usize
    requires { (at < near) × (0 < n) × (n < 33) × (p.space < 8) }
    ensures { result ≡ kept_near at n p.space p.address }
{
    let space = p.space as usize;
    16777216 * at + 524288 * (n - 1) + 65536 * space + p.address as usize
}

pub(crate) fn kept(at: usize, n: usize, p: Located) -> usize
    requires { at < far }
    ensures { result ≡ kept at n p.space p.address }
{
    if (at < NEAR) & (0 < n) & (n < 33) & (p.space < 8) {
        return kept_near(at, n, p);
    }
    FAR + at
}

// The bytes of a name that is kept.
fn name_kept(text: &[u8], x: usize) -> &[u8]
    ensures { result.now ≡ (name_at text.now x).name }
{
    if x < FAR {
        let from = x / 16777216;
        let to = from + x / 524288 % 32 + 1;
        return word::part(text, Word { from, to });
    }
    let rest = find::rest(text, x - FAR);
    word::part(rest, word::word_at(rest, 0))
}

// What a name stands for, read from its definition.
fn defined_at(text: &[u8], at: usize) -> Located
    ensures { result ≡ stands (defined_at text.now at) }
{
    let rest = find::rest(text, at);
    let w = word::words_of(rest);
    Located {
        space: number::space_of(word::part(rest, w.second)).unwrap_or(0),
        address: number::address_of(word::part(rest, w.third)).unwrap_or(0),
    }
}

// What a name that is kept stands for.
fn place_kept(text: &[u8], x: usize) -> Located
    ensures { result ≡ stands (name_at text.now x) }
{
    if x < FAR {
        return Located {
            space: (x / 65536 % 8) as u8,
            address: (x % 65536) as u16,
        };
    }
    defined_at(text, x - FAR)
}

// What a name stands for, of those that are kept. A map of them would need a heap.
pub(crate) fn place_of(text: &[u8], table: &[usize], name: &[u8]) -> Option<Located>
    ensures { result ≡ located (place_of name.now (names_at text.now table.now)) }
{
    for &x in table {
        if find::same(name_kept(text, x), name) {
            return Some(place_kept(text, x));
        }
    }
    None
}

fn is_letter(b: u8) -> bool
    ensures { result ≡ is_letter b }
{
    b.is_ascii_alphabetic()
}

fn is_name_byte(b: u8) -> bool
    ensures { result ≡ is_name_byte b }
{
    is_letter(b) | b.is_ascii_digit() | (b == b'_') | (b == b'-') | (b == b'.')
}

fn all_name_bytes(word: &[u8]) -> bool
    ensures { result ≡ all_name_bytes word.now }
{
    word.iter().all(|&b| is_name_byte(b))
}

fn starts_with_letter(word: &[u8]) -> bool
    ensures { result ≡ starts_with_letter word.now }
{
    match word.first() {
        Some(&b) => is_letter(b),
        None => false,
    }
}

fn is_keyword(word: &[u8]) -> bool
    ensures { result ≡ is_keyword word.now }
{
    find::same(word, b"read")
        | find::same(word, b"write")
        | find::same(word, b"name")
        | find::same(word, b"registers")
        | find::same(word, b"eeprom")
        | find::same(word, b"status")
        | find::same(word, b"information")
}

pub(crate) fn is_name(word: &[u8]) -> bool
    ensures { result ≡ is_name word.now }
{
    starts_with_letter(word) & all_name_bytes(word) & !(32 < word.len()) & !is_keyword(word)
}

// Refusal 83 of a definition: no name, one that is defined, or one too many.
pub(crate) fn bad_name(text: &[u8], table: &[usize], name: &[u8]) -> bool
    ensures { result ≡ (not (is_name name.now)
        || is_known (place_of name.now (names_at text.now table.now))
        || eqb (length (names_at text.now table.now)) most_names) }
{
    !is_name(name) | place_of(text, table, name).is_some() | (table.len() == MOST_NAMES)
}
