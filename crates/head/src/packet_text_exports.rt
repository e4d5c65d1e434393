// A packet in words, for C.
ghost use Rattle.std.specs.Prelude.{◌≡◌, not, ◌||◌, eqb, length};
ghost use Rattle.lbp16.specs.Pointer.{above_size, pointers_of};
ghost use Rattle.head.specs.PacketTextExports.{packet_text_left, export_packet_text};

use crate::lent;
use lbp16::pointer::Pointers;

// Not eight pointers, or one above the size of its space or info area.
fn bad_pointers(pointers: &[u32]) -> bool
    ensures { result ≡ (not (eqb (length pointers.now) 8) || above_size (pointers_of pointers.now)) }
{
    (pointers.len() != 8) | Pointers::from_lent(pointers).above_size()
}

// `bytes` is the text's length, also where the room is too small. `pointers` are moved as the packet moves them.
#[unsafe(no_mangle)]
pub extern "C" fn head_packet_text(
    packet: &[u8],
    pointers: &mut [u32],
    out: &mut [u8],
    bytes: &mut u64,
) -> u32
    ensures { packet_text_left result bytes.new pointers.new out.new
        ≡ export_packet_text packet.now pointers.old out.old }
{
    *bytes = 0;
    if bad_pointers(pointers) {
        return 1;
    }
    let shown = packet_text::put_packet(out, packet, Pointers::from_lent(pointers));
    match shown {
        Ok(shown) => {
            *bytes = shown.bytes as u64;
            lent::put_pointers(shown.pointers, pointers);
            0
        }
        Err(r) => {
            *bytes = r.place;
            r.rule.number()
        }
    }
}
