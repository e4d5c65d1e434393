// The whole text of a packet.
ghost use Rattle.std.specs.Prelude.{◌≡◌, ◌≤◌, length, IfSome};
ghost use Rattle.std.proofs.lemmas.List.Edits.{sets};
ghost use Rattle.text.specs.Room.{filled, put_at};
ghost use Rattle.packet.specs.Judge.{Carried, judge, accepted};
ghost use Rattle.card.specs.Run.{checked_packet};
ghost use Rattle.reason.specs.Reason.{pointers_left, reason_of, reason_listed};
ghost use Rattle.packet_text.specs.Packet.{refusal_text, text_by, packet_text};
ghost use Rattle.packet_text.specs.Inside.{laid_at, OfPacket};

use crate::{Shown, command, listing, put_refused};
use lbp16::pointer::Pointers;
use reason::Reason;

// A refusal, and from 3 on the command that it is of.
fn put_refusal(out: &mut [u8], at: usize, packet: &[u8], r: Reason) -> usize
    ensures { filled result out.new ≡ put_at (refusal_text packet.now r) at out.old }
{
    let at = text::put(out, at, b"  ");
    let at = put_refused(out, at, r);
    if r.number < 3 {
        return at;
    }
    let at = text::put(out, at, b"  ");
    command::put_command(out, at, packet, r)
}

// Its bytes; it is put as far as there is room.
fn lay_refusal(out: &mut [u8], at: usize, packet: &[u8], r: Reason) -> usize
    requires { OfPacket packet.now r }
    ensures { (result ≡ length (refusal_text packet.now r)) × (out.new ≡ sets out.old at (refusal_text packet.now r)) × (result ≤ 4816) }
{
    let mut room = [0u8; 4816];
    let n = put_refusal(&mut room, 0, packet, r);
    text::put(out, at, &room[..n]);
    n
}

fn lay_accepted(out: &mut [u8], packet: &[u8], p: Pointers) -> Shown
    requires { (length packet.now ≤ 1472) × ((end : Carried) × (judge p packet.now ≡ accepted end)) }
    ensures { (filled result.bytes out.new ≡ laid_at (text_by p packet.now (judge p packet.now)) 0 out.old)
        × (result.pointers ≡ pointers_left (judge p packet.now) p) × (result.bytes ≤ 69584) }
{
    if packet.len() == 0 {
        text::put(out, 0, b"  no commands\n");
        return Shown {
            bytes: 14,
            pointers: p,
        };
    }
    listing::lay_lines(out, packet, p)
}

// The packet's text, put as far as there is room: its bytes, and the pointers that the packet leaves.
pub(crate) fn lay_packet(
    out: &mut [u8],
    packet: &[u8],
    p: Pointers,
    reason: Option<Reason>,
) -> Shown
    requires { (reason_listed reason ≡ reason_of p packet.now (checked_packet p packet.now)) × IfSome reason (λ r. 1 ≤ r.number) }
    ensures { (filled result.bytes out.new ≡ laid_at (packet_text p packet.now) 0 out.old)
        × (result.pointers ≡ pointers_left (checked_packet p packet.now) p) × (result.bytes ≤ 69584) }
{
    let Some(r) = reason else {
        return lay_accepted(out, packet, p);
    };
    let lines = listing::lay_lines(out, reason::front(packet, r.place), p);
    let n = lay_refusal(out, lines.bytes, packet, r);
    Shown {
        bytes: lines.bytes + n,
        pointers: p,
    }
}
