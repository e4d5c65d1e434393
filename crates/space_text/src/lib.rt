// A space in words.
#![tactic(auto)]

ghost use Rattle.std.specs.Prelude.{◌≡◌};
ghost use Rattle.lbp16.specs.Space.{space_of};
ghost use Rattle.text.specs.Room.{filled, put_at};
ghost use Rattle.space_text.specs.SpaceText.{space_word, space_text};

use lbp16::space;
use text::{line, pick};

// The name of a space; nothing for one that the card lacks.
pub fn put_word(out: &mut [u8], at: usize, space: u8) -> usize
    ensures { filled result out.new ≡ put_at (space_word (space_of space)) at out.old }
{
    // A match would be a table of pointers in the library, which the linker of a 64-bit processor has to write.
    let t = pick(space == 7, b"information", b"");
    let t = pick(space == 6, b"status", t);
    let t = pick(space == 2, b"eeprom", t);
    let t = pick(space == 0, b"registers", t);
    text::put(out, at, t)
}

// A space by its name, or by its number where the card has none.
pub fn put_space(out: &mut [u8], at: usize, n: u8) -> usize
    ensures { filled result out.new ≡ put_at (space_text n) at out.old }
{
    if space::is_absent(n) {
        return line::numbered(out, at, b"space ", n as u64);
    }
    put_word(out, at, n)
}
