// A line's words, found in the text from the line on.
ghost use Rattle.std.specs.Prelude.{◌≡◌, ◌+◌, ◌≤◌, ℕ, length, drop};
ghost use Rattle.cue_text.specs.Words.{is_blank};
ghost use Rattle.cue_text.specs.Inside.{in_word, blanks, word_bytes, word_from, word_in, word_count, HoldsWords};

use text::least;

// From its first byte to behind its last; both are one place where there is no word.
#[derive(Clone, Copy, Debug, PartialEq, Eq)]
pub(crate) struct Word {
    pub(crate) from: usize,
    pub(crate) to: usize,
}

// A line's first four words, and how many it has; five are five or more.
#[derive(Clone, Copy, Debug, PartialEq, Eq)]
pub(crate) struct Words {
    pub(crate) first: Word,
    pub(crate) second: Word,
    pub(crate) third: Word,
    pub(crate) fourth: Word,
    pub(crate) count: usize,
}

fn is_blank(b: u8) -> bool
    ensures { result ≡ is_blank b }
{
    (b == b' ') | (b == b'\t') | (b == b'\r')
}

fn in_word(b: u8) -> bool
    ensures { result ≡ in_word b }
{
    !(is_blank(b) | ((b == b'\n') | (b == b'#')))
}

// The first place from `at` on that has no blank. A `for`, here and below: counted by an iterator, a line costs half as much again.
fn past_blanks(rest: &[u8], at: usize) -> usize
    requires { at ≤ length rest.now }
    ensures { (result ≡ at + blanks (drop at rest.now)) × (result ≤ length rest.now) }
{
    for i in at..rest.len() {
        if !is_blank(rest[i]) {
            return i;
        }
    }
    rest.len()
}

// The end of the word at `from`.
fn past_word(rest: &[u8], from: usize) -> usize
    requires { from ≤ length rest.now }
    ensures { (result ≡ from + word_bytes (drop from rest.now)) × (result ≤ length rest.now) }
{
    for i in from..rest.len() {
        if !in_word(rest[i]) {
            return i;
        }
    }
    rest.len()
}

// The next word from `at` on.
pub(crate) fn word_at(rest: &[u8], at: usize) -> Word
    requires { at ≤ length rest.now }
    ensures { (result ≡ word_from rest.now at) × (result.to ≤ length rest.now) }
{
    let from = past_blanks(rest, at);
    let to = past_word(rest, from);
    Word { from, to }
}

// The same behind a word. Where there is none, none follows: most lines have fewer words than are asked for.
#[inline(always)]
fn word_behind(rest: &[u8], w: Word) -> Word
    requires { w.to ≤ length rest.now }
    ensures { (k : ℕ) → w ≡ word_from rest.now k → (result ≡ word_from rest.now w.to) × (result.to ≤ length rest.now) }
{
    if w.from == w.to {
        w
    } else {
        word_at(rest, w.to)
    }
}

pub(crate) fn part(rest: &[u8], w: Word) -> &[u8]
    ensures { result.now ≡ word_in rest.now w }
{
    let to = least(w.to, rest.len());
    let from = least(w.from, to);
    &rest[from..to]
}

fn word_count(w: Word) -> usize
    ensures { (result ≡ word_count w) × (result ≤ 1) }
{
    if w.from < w.to { 1 } else { 0 }
}

// The words of the line that `rest` begins with.
pub(crate) fn words_of(rest: &[u8]) -> Words
    ensures { HoldsWords rest.now result }
{
    let first = word_at(rest, 0);
    let second = word_behind(rest, first);
    let third = word_behind(rest, second);
    let fourth = word_behind(rest, third);
    let fifth = word_behind(rest, fourth);
    let count = word_count(first) + word_count(second) + word_count(third) + word_count(fourth);
    Words {
        first,
        second,
        third,
        fourth,
        count: count + word_count(fifth),
    }
}
