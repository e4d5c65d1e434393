// Parts of a packet.
ghost use Rattle.std.specs.Prelude.{◌≡◌, min, length, drop};

// How many of the bytes a number names: all of them where it names more.
pub(crate) fn within(n: u64, s: &[u8]) -> usize
    ensures { result ≡ min n (length s.now) }
{
    n.min(s.len() as u64) as usize
}

// The bytes from a place on.
pub fn rest(s: &[u8], place: usize) -> &[u8]
    ensures { result.now ≡ drop place s.now }
{
    s.get(place..).unwrap_or(&[])
}
