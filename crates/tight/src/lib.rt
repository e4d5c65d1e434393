// Whether a proposed output may stand for a cue list's own: the checker that alone is trusted.
#![tactic(auto)]

use cue::plan;
use lbp16::Refusal;

mod walk;

ghost use Rattle.std.specs.Prelude.{◌≡◌, ℕ};
ghost use Rattle.tight.specs.Tight.{checked, check_listed};
ghost use Rattle.tight.specs.Tight;
ghost use Rattle.tight.specs.Demand3.{TightDemand3};

// Where a pointer stands that its packet has not set: no multiple of any element's size, and above every address.
pub const UNSET_ADDRESS: u32 = 65537;

// Why a proposal may not stand for the list's output: it is rejected, or the list itself is refused.
#[derive(Clone, Copy, Debug, PartialEq, Eq)]
pub enum Fault {
    Rejected,
    List(Refusal),
}

impl From<Refusal> for Fault {
    ghost use Rattle.tight.specs.declared.Fault.TheVariants.{List};

    ghost from_gives = { λ r f. f ≡ List r };

    fn from(r: Refusal) -> Self {
        Fault::List(r)
    }
}

// The packet count.
pub type TightAnswer = Result<u64, Fault>;

// A bad list gets its own refusal first.
pub fn check(list: &[u8], proposal: &[u8]) -> TightAnswer
    ensures checked { check_listed result ≡ checked list.now proposal.now }
    ensures demand3 { (count : ℕ) → check_listed result ≡ Tight.accepted count → TightDemand3 list.now proposal.now count }
{
    let packed = plan::plan(list)?;
    if packed.bytes < proposal.len() {
        return Err(Fault::Rejected);
    }
    walk::packets_checked(list, proposal).ok_or(Fault::Rejected)
}
