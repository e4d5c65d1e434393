// Saving what can be saved of a damaged cue list. The first pass counts what is kept and skipped, and only the second
// writes, so that a refusal leaves both rooms as they are.
#![tactic(auto)]

use lbp16::{Refusal, Rule};

pub mod scan;
mod write;

ghost use Rattle.std.specs.Prelude.{◌≡◌};
ghost use Rattle.salvage.specs.Salvage.{salvaged, left};

// The bytes kept and the log's entries.
#[derive(Clone, Copy, Debug, PartialEq, Eq)]
pub struct Kept {
    pub bytes: usize,
    pub entries: usize,
}

// What is kept, or why nothing was written.
pub type SalvageAnswer = Result<Kept, Refusal>;

// `log` takes two numbers for each stretch skipped: its start and its length. Refused with 26 where `out` is shorter than
// the list, and with 27 where `log` has not room for all entries.
pub fn salvage(list: &[u8], out: &mut [u8], log: &mut [u64]) -> SalvageAnswer
    ensures { left result out.new log.new ≡ salvaged list.now out.old log.old }
{
    if out.len() < list.len() {
        return Err(Rule::Room.at(list.len() as u64));
    }
    let counts = scan::count(list);
    if log.len() / 2 < counts.entries {
        return Err(Rule::LogRoom.at(counts.entries as u64));
    }
    write::write(list, out, log);
    Ok(Kept {
        bytes: counts.bytes,
        entries: counts.entries,
    })
}
