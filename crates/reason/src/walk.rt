// The walk over a packet's commands, up to the one that the check refuses.
ghost use Rattle.std.specs.Prelude.{◌≡◌};
ghost use Rattle.packet.specs.Judge.{judge, refused};
ghost use Rattle.reason.specs.Reason.{named};

use crate::{Reason, reader};
use lbp16::pointer::Pointers;
use packet::command;

// The command at the place `to`, which the check refuses. The commands before it pass, so that no rule is asked again.
pub(crate) fn walk(packet: &[u8], p: Pointers, number: u32, to: u64) -> Reason
    requires { judge p packet.now ≡ refused number to }
    ensures { result ≡ named p packet.now number to }
{
    let mut pointers = p;
    let mut place: usize = 0;
    let mut index: u64 = 0;
    while (place as u64) < to {
        let h = reader::header_at(packet, place, pointers);
        let fields = h.fields;
        let k = command::command_bytes(fields);
        pointers = command::pointers_after(pointers, fields, h.address);
        place = reader::place_after(packet, place, k);
        index += 1;
    }
    let last = reader::header_at(packet, place, pointers);
    let fields = last.fields;
    Reason {
        number,
        place: to,
        index,
        fields,
        address: last.address,
    }
}
