// What is wrong with a line, in words.
ghost use Rattle.std.specs.Prelude.{◌≡◌, map};
ghost use Rattle.text.specs.Room.{filled, put_at};
ghost use Rattle.cueasm_output.specs.Sentence.{says, shown, quoted, sentence};

use cue_text::fault;
use cue_text::fault::Cause;
use text::{least, line};

// Behind the word at fault.
fn words(cause: Cause) -> &'static [u8]
    ensures { result.now ≡ says cause }
{
    match cause {
        Cause::Form => {
            b" and what follows are none of: read SPACE ADDRESS, read NAME, write SPACE ADDRESS VALUE, write NAME VALUE, name NAME SPACE ADDRESS"
        }
        Cause::Space => b" is no space: registers, eeprom, status, information or a number to 255",
        Cause::Address => b" is no address: a number to 65535",
        Cause::Value => b" is no value: a number to 4294967295",
        Cause::NoName => {
            b" is no name: a letter, then letters, digits, _, - and ., 32 at most, and no word that a line has of its own"
        }
        Cause::NotDefined => b" is not defined above",
        Cause::Again => b" is defined above already",
        Cause::TooMany => b" is the 1001st name, and a text may have 1000",
        Cause::Records => b" is the 100001st record, and a list may have 100000",
        Cause::NoSpace => b" is a space that the card does not have",
        Cause::Misaligned => b" is no multiple of an element's bytes: 4 in registers, else 2",
        Cause::PastEnd => b" is past the end of the space",
        Cause::ReadOnly => b" is read only",
        Cause::Unlock => b" is the unlock cell, which a list may not name",
        Cause::PacketCount => b" is the packet count, which a list may not name",
        Cause::TooWide => b" has more than the 2 bytes of an element there",
    }
}

fn shown(b: u8) -> u8
    ensures { result ≡ shown b }
{
    if (31 < b) & (b < 127) { b } else { b'?' }
}

fn put_shown(out: &mut [u8], at: usize, word: &[u8]) -> usize
    ensures { filled result out.new ≡ put_at (map shown word.now) at out.old }
{
    let mut next = least(at, out.len());
    for &b in word {
        next = text::put(out, next, &[shown(b)]);
    }
    next
}

// A word in quotes, its first 32 bytes at most.
fn put_quoted(out: &mut [u8], at: usize, word: &[u8]) -> usize
    ensures { filled result out.new ≡ put_at (quoted word.now) at out.old }
{
    let n = least(32, word.len());
    let at = text::put(out, at, b"\"");
    let at = put_shown(out, at, &word[..n]);
    text::put(out, at, b"\"")
}

// Of a line that is refused with this number.
pub(crate) fn put_sentence(out: &mut [u8], text: &[u8], number: u32, line: u64) -> usize
    ensures { filled result out.new ≡ put_at (sentence number line text.now) 0 out.old }
{
    let at = line::numbered(out, 0, b"line ", line);
    let at = text::put(out, at, b": ");
    let at = put_quoted(out, at, fault::word_of(number, line, text));
    let f = fault::fault_of(number, line, text);
    let at = text::put(out, at, words(f.cause));
    text::put(out, at, b"\n")
}
