// Whether a command takes its address from a pointer.
ghost use Rattle.std.specs.Prelude.{◌≡◌, ◌≤◌, IfSome};
ghost use Rattle.reason.specs.Reason.{reason_listed};
ghost use Rattle.why_output.specs.Pointed.{by_pointer, pointed_from, pointed_to, uses_pointer};

use packet::command;
use reason::{Reason, slice};
use text::least;

// The command at the front; not where its word is cut off.
fn by_pointer(rest: &[u8]) -> bool
    ensures { result ≡ by_pointer rest.now }
{
    let f = command::fields_at(rest);
    (1 < rest.len()) & !f.address
}

// One of the commands before a place.
fn pointed_before(packet: &[u8], place: usize) -> bool
    ensures { result ≡ pointed_from place place packet.now }
{
    let mut n = place;
    let mut rest = packet;
    // How long a command is is known only once its word is read.
    while 0 < n {
        if by_pointer(rest) {
            return true;
        }
        let k = command::command_bytes(command::fields_at(rest));
        n -= least(k, n);
        let from = least(k, rest.len());
        rest = &rest[from..];
    }
    false
}

// Or the one there.
pub(crate) fn pointed_to(packet: &[u8], place: usize) -> bool
    ensures { result ≡ pointed_to place packet.now }
{
    pointed_before(packet, place) | by_pointer(slice::rest(packet, place))
}

pub(crate) fn uses_pointer(packet: &[u8], reason: Option<Reason>) -> bool
    requires { IfSome reason (λ r. 1 ≤ r.number) }
    ensures { result ≡ uses_pointer packet.now (reason_listed reason) }
{
    let Some(r) = reason else {
        return pointed_to(packet, packet.len());
    };
    if r.number < 3 {
        return false;
    }
    pointed_to(packet, r.place as usize)
}
