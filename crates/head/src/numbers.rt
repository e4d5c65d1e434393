// An answer as the numbers that C gets.
ghost use Rattle.std.specs.Prelude.{◌≡◌, List, ℕ};
ghost use Rattle.lbp16.specs.Answer.{accepted};
ghost use Rattle.head.specs.Exports.{numbers_of};
ghost use Rattle.head.specs.Listing.{listed_by, length_listed, packed_listed, written_listed, recorded_listed, kept_listed, fields_listed};

use capture::Recorded;
use cue::Packed;
use cue_text::Written;
use lbp16::Refusal;
use salvage::Kept;
use sserial::count::FieldCounts;

// The number returned, and the values that are written beside it.
#[derive(Clone, Copy, Debug, PartialEq, Eq)]
pub(crate) struct Numbers(pub(crate) u32, pub(crate) u64, pub(crate) u64);

// What an accepted input is answered with.
pub(crate) trait Values {
    ghost listed: { Self → List ℕ };

    fn numbers(self) -> Numbers
        ensures { result ≡ numbers_of (accepted (listed self)) };
}

impl Values for u64 {
    ghost listed = { length_listed };

    fn numbers(self) -> Numbers {
        Numbers(0, self, 0)
    }
}

impl Values for Packed {
    ghost listed = { packed_listed };

    fn numbers(self) -> Numbers {
        Numbers(0, self.bytes as u64, self.packets as u64)
    }
}

impl Values for Written {
    ghost listed = { written_listed };

    fn numbers(self) -> Numbers {
        Numbers(0, self.bytes as u64, self.count as u64)
    }
}

impl Values for Recorded {
    ghost listed = { recorded_listed };

    fn numbers(self) -> Numbers {
        Numbers(0, self.bytes as u64, self.packets as u64)
    }
}

impl Values for Kept {
    ghost listed = { kept_listed };

    fn numbers(self) -> Numbers {
        Numbers(0, self.bytes as u64, self.entries as u64)
    }
}

impl Values for FieldCounts {
    ghost listed = { fields_listed };

    fn numbers(self) -> Numbers {
        Numbers(0, self.inputs as u64, self.outputs as u64)
    }
}

pub(crate) fn numbers_of<T: Values>(answer: Result<T, Refusal>) -> Numbers
    ensures { result ≡ numbers_of (listed_by T.listed answer) }
{
    match answer {
        Ok(values) => values.numbers(),
        Err(r) => Numbers(r.rule.number(), r.place, 0),
    }
}
