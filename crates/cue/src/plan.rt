// The first pass: every record is checked and packed, and nothing is written.
ghost use Rattle.std.specs.Prelude.{◌≡◌};
ghost use Rattle.cue.specs.Records.{records_of};
ghost use Rattle.cue.specs.Compile.{compile_listed, needed};

use crate::packer::Packer;
use crate::{CompileAnswer, Packed, packer, records};
use lbp16::space;

// The bytes and packets that the list needs, or the refusal of its earliest bad record.
pub fn plan(list: &[u8]) -> CompileAnswer
    ensures { compile_listed result ≡ needed (records_of list.now) }
{
    let mut rest = list;
    let mut index: usize = 0;
    let mut packer = Packer::empty();
    // A refused record has no length, so that the check must come before the next record is looked for.
    while rest.len() != 0 {
        if let Err(rule) = records::record_refusal(rest, index) {
            return Err(rule.at(index as u64));
        }
        let r = records::whole_record(rest);
        packer = packer::turned(packer, r, space::row_of(r.space));
        let n = records::record_bytes(r.write);
        rest = &rest[n..];
        index += 1;
    }
    Ok(Packed {
        bytes: packer.end,
        packets: packer.packets,
    })
}
