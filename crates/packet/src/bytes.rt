// Numbers in bytes, low byte first.
ghost use Rattle.std.specs.Prelude.{◌≡◌, ◌+◌, ◌≤◌, length, take, drop};
ghost use Rattle.packet.specs.Bytes.{number};

// The number in the two bytes from `at` on, low byte first.
pub(crate) fn pair(s: &[u8], at: usize) -> u16
    requires { at + 2 ≤ length s.now }
    ensures { result ≡ number (take 2 (drop at s.now)) }
{
    u16::from_le_bytes([s[at], s[at + 1]])
}

// The same, of any bytes; a byte that is not there counts as 0. Asked by index: a match on the slice's tail takes a small processor
// longer, and each command's address is read here.
pub fn pair_at(s: &[u8], at: usize) -> u16
    ensures { result ≡ number (take 2 (drop at s.now)) }
{
    if s.len() <= at {
        return 0;
    }
    let next = at + 1;
    if s.len() <= next {
        s[at] as u16
    } else {
        u16::from_le_bytes([s[at], s[next]])
    }
}
