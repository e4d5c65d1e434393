// Text put into a lent room: each function answers the place behind what it put, and cuts off at the room's end what does not fit.
#![tactic(auto)]

pub mod find;
pub mod line;
pub mod number;

ghost use Rattle.std.specs.Prelude.{cond, ◌≡◌, min};
ghost use Rattle.text.specs.Room.{filled, put_at};

// The smaller of two numbers.
pub fn least(a: usize, b: usize) -> usize
    ensures { result ≡ min a b }
{
    a.min(b)
}

pub fn put(out: &mut [u8], at: usize, text: &[u8]) -> usize
    ensures { filled result out.new ≡ put_at text.now at out.old }
{
    let from = least(at, out.len());
    let n = least(text.len(), out.len() - from);
    // A loop, since a copy of a slice calls memmove, which the library does not ask for.
    for i in 0..n {
        out[from + i] = text[i];
    }
    from + n
}

// One of two texts.
pub fn pick<'a>(test: bool, text: &'a [u8], other: &'a [u8]) -> &'a [u8]
    ensures { result.now ≡ cond test text.now other.now }
{
    if test {
        return text;
    }
    other
}
