// Compiling a cue list into LBP16 packets. The first pass checks every record and counts what the packets need, and
// only the second writes, so that a refused list leaves the room as it is.
#![tactic(auto)]

use lbp16::{Refusal, Rule};

mod emit;
pub mod frame;
pub mod packer;
pub mod plan;
pub mod records;
pub mod untrusted;

ghost use Rattle.std.specs.Prelude.{◌≡◌, ℕ, [], ◌∷◌};
ghost use Rattle.cue.specs.Demand3.{Demand3};
ghost use Rattle.lbp16.specs.Answer.{Answer};
ghost use Rattle.cue.specs.Compile.{compiled, compile_listed, left};

// The output's bytes and how many packets it holds.
#[derive(Clone, Copy, Debug, PartialEq, Eq)]
pub struct Packed {
    pub bytes: usize,
    pub packets: usize,
}

// What a list is packed into, or why it was refused.
pub type CompileAnswer = Result<Packed, Refusal>;

// Refused with 26, and the bytes needed as its place, where the list is good and the room too small.
pub fn compile(list: &[u8], out: &mut [u8]) -> CompileAnswer
    ensures compiled { left result out.new ≡ compiled list.now out.old }
    ensures demand3 { (bytes count : ℕ) → compile_listed result ≡ Answer.accepted (bytes ∷ count ∷ [])
        → Demand3 list.now out.new bytes count }
{
    let packed = plan::plan(list)?;
    if out.len() < packed.bytes {
        return Err(Rule::Room.at(packed.bytes as u64));
    }
    emit::emit(list, out);
    Ok(packed)
}
