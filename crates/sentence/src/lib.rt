// What each number means, in words.
#![tactic(auto)]

ghost use Rattle.std.specs.Prelude.{◌≡◌};
ghost use Rattle.text.specs.Room.{filled, put_at};
ghost use Rattle.sentence.specs.Sentence.{sentence_of};
ghost use Rattle.sentence.specs.Whole.{whole_left};

// The table: a row for each number.
#[tactic(auto, unfolding(crate::specs::Sentence::sentence_of, crate::specs::Sentence::says_of, crate::specs::Sentence::sentences, crate::specs::Sentence::no_meaning, text::specs::Number::ascii))]
fn says(number: u32) -> &'static [u8]
    ensures { result.now ≡ sentence_of number }
{
    match number {
        0 => b"accepted",
        1 =>
            b"store, pointers, reply room, answer room, or state of a list in parts: wrong length or value",
        2 => b"the packet is above 1,472 bytes",
        3 => b"command word or its address cut off",
        4 => b"info bit set in a write",
        5 => b"the card has no such space",
        6 => b"element size not the space's, or not 2 bytes in an info read",
        7 => b"count 0, no element is named",
        8 =>
            b"address not a multiple of the element size, or an element past the end of the space or info area",
        9 => b"a write to read-only cells, any of space 7 or those of space 2 below 0x20",
        10 => b"a write to space 2 while the unlock is closed",
        11 => b"write data cut off",
        12 => b"the reply would pass 1,472 bytes",
        13 => b"field out of range, or not as many fields as a word or a header has",
        21 => b"100,000 records read and bytes remain",
        22 => b"mark unknown, or record cut",
        23 =>
            b"no such space, misaligned, past the end, read-only, or the unlock cell or the packet count",
        24 => b"spare byte not 0, or upper half of a value not 0 in a space of 2-byte elements",
        26 =>
            b"room below the bytes needed: the output's; the list's, of one salvaged; 1,476 for a part",
        27 => b"room for fewer log entries, or frames of a capture, than are needed",
        31 => b"no SPI word",
        32 => b"command not 0xA or 0xB",
        33 => b"count 0; when a header is written, also above 127",
        34 => b"more words than 1 plus the count",
        35 => b"address not a multiple of 4, or some promised element past the end",
        40 =>
            b"no such field, channel or direction, room or values of another number, or a value out of range",
        41 =>
            b"the process table needs a byte not lent, or has a record, type, mode type or direction unknown",
        42 => b"a field of 0 or above 64 bits, or more than 96 bits in one direction",
        43 => b"a channel asked for that is not started",
        44 => b"a field not of type 2, not of 1 to 24 bits, or a value too large for its width",
        45 => b"a bound that is no finite number, or a maximum not above the minimum",
        46 => b"the value times the maximum is not finite",
        50 => b"list good, and the output proposed for it rejected",
        51 =>
            b"a record of the second list writes a cell that the first names, or names one that it writes",
        61 => b"a packet that is refused",
        62 => b"a reply of another length than the card's",
        63 => b"a reply of the right length with a wrong byte",
        64 => b"the recording ends inside a part, or where a reply should begin",
        65 => b"a part without the mark",
        70 => b"the guard is not sound",
        71 => b"a write to a protected cell",
        81 => b"a line of no form: its first word with its number of words is none of the five",
        82 => b"a word where a space, address or value must stand is none, or is too large",
        83 => b"a name that is none, unknown, defined twice or one too many",
        91 =>
            b"no capture that is read here: fewer than 24 bytes, another magic or another link type",
        92 => b"a frame cut: fewer bytes than its header has, or than it says were captured",
        93 =>
            b"a datagram of the card not whole: more fragments, another UDP length, or bytes not captured",
        94 => b"a second reply to a request",
        _ => b"no refusal has this number",
    }
}

pub fn put_sentence(out: &mut [u8], at: usize, number: u32) -> usize
    ensures { filled result out.new ≡ put_at (sentence_of number) at out.old }
{
    text::put(out, at, says(number))
}

// The sentence at the room's front; a room that is too small stays as it is. Answered are the bytes needed.
pub fn whole(out: &mut [u8], number: u32) -> usize
    ensures { filled result out.new ≡ whole_left (sentence_of number) out.old }
{
    let sentence = says(number);
    let n = sentence.len();
    if out.len() < n {
        return n;
    }
    text::put(out, 0, sentence)
}
