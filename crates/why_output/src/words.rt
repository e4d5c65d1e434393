// The words that the program is started with.
ghost use Rattle.std.specs.Prelude.{[], ◌∷◌, ◌≡◌};
ghost use Rattle.text.specs.Room.{filled, put_at};
ghost use Rattle.why_output.specs.Words.{is_option, no_words, with_word, words_of, most_read, usage_text};

use crate::MOST;
use text::find;

// `name`: which argument names the file of pointers, from 1; `wrong`: a word that is not known, or is there twice, or one too many.
// `wrong` stands beside: the file named last is opened also where the words are wrong, and `words_of` promises it of wrong words too.
#[derive(Clone, Copy, Debug, PartialEq, Eq)]
pub struct Words {
    pub hex: bool,
    pub lb: bool,
    pub name: Option<usize>,
    pub wrong: bool,
}

// Whether a word begins with -, so that it is no name of a file.
pub fn is_option(word: &[u8]) -> bool
    ensures { result ≡ is_option word.now }
{
    word.first().copied().unwrap_or(0) == b'-'
}

fn no_words(wrong: bool) -> Words
    ensures { result ≡ no_words wrong }
{
    Words {
        hex: false,
        lb: false,
        name: None,
        wrong,
    }
}

// With argument k.
fn with_word(w: Words, k: usize, word: &[u8]) -> Words
    ensures { result ≡ with_word w k word.now }
{
    if find::same(word, b"--hex") {
        return Words {
            hex: true,
            wrong: w.wrong | w.hex,
            ..w
        };
    }
    if find::same(word, b"--lb") {
        return Words {
            lb: true,
            wrong: w.wrong | w.lb,
            ..w
        };
    }
    Words {
        name: Some(k),
        wrong: w.wrong | (w.name.is_some() | is_option(word)),
        ..w
    }
}

// `count`: how many words there are, the program's name among them.
pub fn words_of(count: usize, first: &[u8], second: &[u8], third: &[u8]) -> Words
    ensures { result ≡ words_of count (first.now ∷ second.now ∷ third.now ∷ []) }
{
    if 4 < count {
        return no_words(true);
    }
    let none = no_words(false);
    if count < 2 {
        return none;
    }
    let one = with_word(none, 1, first);
    if count == 2 {
        return one;
    }
    let two = with_word(one, 2, second);
    if count == 3 {
        return two;
    }
    with_word(two, 3, third)
}

// The bytes of standard input that are looked at: one more than it may have, and none where nothing is done with them.
pub fn most_read(w: Words, found: bool) -> usize
    ensures { result ≡ most_read w found }
{
    if w.wrong | !(w.name.is_none() | found) {
        return 0;
    }
    MOST + 1
}

pub(crate) fn put_usage(room: &mut [u8]) -> usize
    ensures { filled result room.new ≡ put_at usage_text 0 room.old }
{
    let at = text::put(room, 0, b"usage: why [--hex] [--lb] [POINTERS] < INPUT\n");
    let at = text::put(
        room,
        at,
        b"INPUT is a packet; with --lb packets, each behind \"LB\" and its length; with --hex hexadecimal text of these.\n",
    );
    text::put(
        room,
        at,
        b"It has at most 3,000,000 bytes. POINTERS is a file of the card's eight pointers, 32 bytes; a fresh card has zeros.\n",
    )
}
