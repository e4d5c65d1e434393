// Bytes cut, joined and compared.
ghost use Rattle.std.specs.Prelude.{◌≡◌, min, length};

// Bytes by value: the first n. No heap is used, so that a show never runs out of it.
#[derive(Clone, Copy)]
pub(crate) struct Bytes {
    bytes: [u8; 8192],
    n: u64,
}

impl Bytes {
    pub(crate) fn empty() -> Bytes {
        Bytes {
            bytes: [0; 8192],
            n: 0,
        }
    }

    // The first n bytes of a room.
    pub(crate) fn of(bytes: [u8; 8192], n: u64) -> Bytes {
        Bytes { bytes, n }
    }

    pub(crate) fn whole(&self) -> &[u8] {
        part(&self.bytes, 0, self.n)
    }

    // More bytes behind these, as far as there is room.
    pub(crate) fn add(&mut self, s: &[u8]) {
        self.n = text::put(&mut self.bytes, self.n as usize, s) as u64;
    }
}

// How many of the bytes a number names: all of them where it names more.
pub(crate) fn within(n: u64, s: &[u8]) -> usize
    ensures { result ≡ min n (length s.now) }
{
    text::least(n as usize, s.len())
}

// Up to n bytes from a place on.
pub(crate) fn part(s: &[u8], place: u64, n: u64) -> &[u8] {
    let tail = s.get(place as usize..).unwrap_or(&[]);
    input::front(tail, n as usize)
}

// Where `but` is true, two cells of the store may differ: the packet count and the unlock cell.
fn may_differ(i: usize, but: bool) -> bool {
    but & ((i / 2 == 32837) | (i / 2 == 32845))
}

pub(crate) fn same(a: &[u8], b: &[u8], but: bool) -> bool {
    a.len() == b.len()
        && a.iter()
            .zip(b)
            .enumerate()
            .all(|(i, (x, y))| (*x == *y) | may_differ(i, but))
}

pub(crate) fn same_bytes(a: &Bytes, b: &Bytes) -> u64 {
    (a.whole() == b.whole()) as u64
}
