// Why a packet is refused, for C.
ghost use Rattle.std.specs.Prelude.{◌≡◌};
ghost use Rattle.head.specs.ReasonExports.{reason_for, why_left, export_why, WhyFront};

use crate::lent;
use lbp16::pointer::Pointers;
use reason::Reason;

fn reason_for(packet: &[u8], store: &[u8], pointers: &[u32]) -> Reason
    ensures { result ≡ reason_for packet.now store.now pointers.now }
{
    if pointers.len() != 8 {
        return reason::no_command(1);
    }
    let p = Pointers::from_lent(pointers);
    reason::explain(packet, store, p).unwrap_or(reason::no_command(0))
}

// Says why a packet is refused: the number, and the command at fault by place, index and fields, as seven bytes.
#[unsafe(no_mangle)]
pub extern "C" fn head_why(
    packet: &[u8],
    store: &[u8],
    pointers: &[u32],
    place: &mut u64,
    index: &mut u64,
    fields: &mut [u8],
) -> u32
    ensures why { why_left result place.new index.new fields.new
        ≡ export_why packet.now store.now pointers.now fields.old }
    ensures front { WhyFront packet.now store.now pointers.now result place.new }
{
    *place = 0;
    *index = 0;
    if fields.len() != 7 {
        return 13;
    }
    let reason = reason_for(packet, store, pointers);
    *place = reason.place;
    *index = reason.index;
    let f = reason.fields;
    lent::put_fields(f, fields);
    reason.number
}
