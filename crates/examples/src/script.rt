// Examples as text, a line for each:
//
//     # TITLE        a fresh card
//     " TEXT         the text alone
//     += HEX         bytes of the list for the next line; + TIMES= HEX puts them so often, LL HH being an address that rises
//     p NAME= HEX    a packet, its bytes in the order of the wire
//     b NAME= HEX    a burst's words, at most 8
//     n= HEX         the card's name, the first bytes of space 7, which no packet can set
//     w NAME= HEX    a command word, in the order of the wire
//     h NAME= HEX    an SPI header
//     j NAME= HEX    a recorded show, judged
//     l NAME= HEX    the list, compiled with so many bytes of room
//     d NAME= HEX    the list, damaged, salvaged with room for so many bytes and numbers of the log
//     2= HEX         the list and another, in either order
//     t NAME=        the list, compiled and tightened
//     s NAME=        the list, played both ways
//     m NAME=        the list for a packet, told by the elements that it moves
//
// A name is written before the answer. A line that begins with = is passed over. HEX are digits of either case, with blanks between as one
// likes; of a line with anything else, `bad hex` is said.
use crate::hex::Data;
use crate::wire::Card;
use crate::{form, list, pair, show, slice, wire, word};
use packet::bytes;
use std::io;
use std::io::Write;
use text::find;

// The card, and the list for the next line.
#[derive(Clone, Copy)]
struct State {
    card: Card,
    list: Data,
}

// The examples that leave the card as it is.
fn apart<W: Write>(to: &mut W, kind: u8, list: &[u8], data: &[u8]) -> io::Result<()> {
    match kind {
        b'w' => word::word(to, data),
        b'h' => word::header(to, wire::first_word(data)),
        b'j' => list::judged(to, data),
        b'l' => {
            list::compiled(to, list, bytes::pair_at(data, 0) as u64)?;
            Ok(())
        }
        b'd' => list::salvaged(to, list, data),
        b'2' => pair::pair(to, list, data),
        b't' => list::tightened(to, list),
        b's' => show::show(to, list),
        _ => Ok(()),
    }
}

fn on_card<W: Write>(
    to: &mut W,
    kind: u8,
    list: &[u8],
    data: &[u8],
    card: &mut Card,
) -> io::Result<()> {
    match kind {
        b'#' => {
            *card = wire::fresh();
            Ok(())
        }
        b'p' => wire::packet(to, data, card),
        b'm' => wire::moving(to, list, card),
        b'b' => wire::burst(to, data, card),
        b'n' => {
            wire::named(data, card);
            Ok(())
        }
        _ => Ok(()),
    }
}

// How often a line's bytes are put: once where it does not say.
fn times(count: &Data) -> u16 {
    match count.first_pair() {
        0 => 1,
        n => n,
    }
}

// A line that is not read leaves the card, and no list.
fn unread<W: Write>(to: &mut W, state: &mut State) -> io::Result<()> {
    form::say(to, b": bad hex\n")?;
    state.list = Data::none();
    Ok(())
}

fn with_more<W: Write>(to: &mut W, name: &[u8], text: &[u8], state: &mut State) -> io::Result<()> {
    let mut count = Data::none();
    count.put_text(name, 0);
    state.list.put_times(text, times(&count));
    if count.is_bad() | state.list.is_bad() {
        form::say(to, b"list")?;
        return unread(to, state);
    }
    Ok(())
}

fn next<W: Write>(
    to: &mut W,
    kind: u8,
    name: &[u8],
    text: &[u8],
    state: &mut State,
) -> io::Result<()> {
    if kind == b'+' {
        return with_more(to, name, text, state);
    }
    form::say(to, name)?;
    let mut own = Data::none();
    own.put_text(text, 0);
    if (kind != b'=') & own.is_bad() {
        return unread(to, state);
    }
    apart(to, kind, state.list.whole(), own.whole())?;
    on_card(to, kind, state.list.whole(), own.whole(), &mut state.card)?;
    state.list = Data::none();
    Ok(())
}

fn line<W: Write>(to: &mut W, s: &[u8], state: &mut State) -> io::Result<()> {
    let kind = (bytes::pair_at(s, 0) % 256) as u8;
    let head = find::bytes_before(s, b'=') as u64;
    let name = slice::part(slice::part(s, 0, head), 2, head);
    next(to, kind, name, slice::part(s, head, 32768), state)
}

pub(crate) fn play<W: Write>(to: &mut W, script: &[u8]) -> io::Result<()> {
    let mut state = State {
        card: wire::fresh(),
        list: Data::none(),
    };
    for s in script.split_inclusive(|&c| c == b'\n') {
        line(to, s, &mut state)?;
    }
    Ok(())
}
