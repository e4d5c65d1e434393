// Cue lists as text. A first pass checks and counts, and only the second writes, so that a refusal leaves the room as it is.
#![tactic(auto)]

use lbp16::{Refusal, Rule};

pub mod fault;
mod known;
pub mod line;
mod number;
mod walk;
mod word;

ghost use Rattle.std.specs.Prelude.{◌≡◌, [], ◌∷◌, ℕ, take};
ghost use Rattle.lbp16.specs.Answer.{Answer};
ghost use Rattle.cue_text.specs.Assembled.{text_assembled, text_listed, left};
ghost use Rattle.cue_text.specs.TextShow.{TextShow};

// The bytes written, and how many records or lines they are.
#[derive(Clone, Copy, Debug, PartialEq, Eq)]
pub struct Written {
    pub bytes: usize,
    pub count: usize,
}

// Or why nothing was written.
pub type TextAnswer = Result<Written, Refusal>;

// The list of a text, whose packets do what the text's lines say. Refused with 81 to 83, 21, 23 and 24 at a line, counted from 1, and of a
// good text with 26 where `out` is shorter than its list.
pub fn assemble(text: &[u8], out: &mut [u8]) -> TextAnswer
    ensures assembled { left result out.new ≡ text_assembled text.now out.old }
    ensures text_show { (bytes count : ℕ) → text_listed result ≡ Answer.accepted (bytes ∷ count ∷ [])
        → TextShow text.now (take bytes out.new) }
{
    let none: usize = 0;
    let checked = walk::walk(text, &mut out[..none])?;
    if out.len() < checked.bytes {
        return Err(Rule::Room.at(checked.bytes as u64));
    }
    walk::walk(text, out)
}
