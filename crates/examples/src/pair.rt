// Two lists: whether they may be run in either order, and if so both orders played.
use crate::slice::Bytes;
use crate::wire::Card;
use crate::{answer, form, list, show, slice, wire};
use std::io;
use std::io::Write;

// What the list that came first read, and the card after the other.
#[derive(Clone, Copy)]
struct Turn {
    first: Bytes,
    card: Card,
}

fn fresh() -> Turn {
    Turn {
        first: Bytes::empty(),
        card: wire::fresh(),
    }
}

// All packets of one output and then all of the other.
fn in_turn<W: Write>(to: &mut W, one: &Bytes, other: &Bytes, turn: &mut Turn) -> io::Result<()> {
    show::play(to, one, &mut turn.card)?;
    turn.first = turn.card.read;
    show::play(to, other, &mut turn.card)
}

fn compared<W: Write>(to: &mut W, forth: &Turn, back: &Turn) -> io::Result<()> {
    let a = &forth.card;
    let b = &back.card;
    form::fill(
        to,
        b"all bytes of the stores: [equal|different]; packet count # and #; the first list's values: [equal|different]; the second's: [equal|different]\n",
        [
            wire::same_stores(a, b, false),
            wire::count(a),
            wire::count(b),
            slice::same_bytes(&forth.first, &b.read),
            slice::same_bytes(&a.read, &back.first),
            0,
            0,
            0,
            0,
        ],
    )
}

fn orders<W: Write>(to: &mut W, one: &Bytes, other: &Bytes) -> io::Result<()> {
    form::say(to, b"in this order:\n")?;
    let mut forth = fresh();
    in_turn(to, one, other, &mut forth)?;
    form::say(to, b"in the other:\n")?;
    let mut back = fresh();
    in_turn(to, other, one, &mut back)?;
    compared(to, &forth, &back)
}

// Writes the answer. Whether the lists are independent.
fn answered<W: Write>(to: &mut W, first: &[u8], second: &[u8]) -> io::Result<bool> {
    let values = answer::of_lists(independent::independent(first, second));
    form::fill(
        to,
        b"[independent|][list #: refused # at #|][not independent: the second list's record # clashes with the first list|]\n",
        values,
    )?;
    Ok(answer::is_set(values))
}

pub(crate) fn pair<W: Write>(to: &mut W, first: &[u8], second: &[u8]) -> io::Result<()> {
    form::say(to, b"the first, list")?;
    let one = list::compiled(to, first, 8192)?;
    form::say(to, b"the second, list")?;
    let other = list::compiled(to, second, 8192)?;
    if answered(to, first, second)? {
        return orders(to, &one, &other);
    }
    Ok(())
}
