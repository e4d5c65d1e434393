// The elements of one command, moved between the packet, the store and the reply.
ghost use Rattle.std.specs.Prelude.{◌≡◌, ◌+◌, ◌*◌, ◌≤◌, length, take, drop};
ghost use Rattle.std.proofs.lemmas.List.Edits.{sets};
ghost use Rattle.card.specs.Inside.{IsWidth, Within, moved};

use crate::element;

// The elements one by one, for any steps.
fn move_each<const W: usize>(
    src: &[u8],
    from: usize,
    from_step: usize,
    dst: &mut [u8],
    to: usize,
    to_step: usize,
    count: u32,
)
    requires { IsWidth W × (from_step ≤ 4) × (to_step ≤ 4) × Within count from from_step W (length src.now)
        × Within count to to_step W (length dst.old) }
    ensures { dst.new ≡ moved count W src.now from from_step dst.old to to_step }
{
    let mut i = from;
    let mut j = to;
    for _ in 0..count {
        element::move_element::<W>(src, i, dst, j);
        i += from_step;
        j += to_step;
    }
}

// One element, fetched once, to `count` places `to_step` apart.
fn fill<const W: usize>(
    src: &[u8],
    from: usize,
    dst: &mut [u8],
    to: usize,
    to_step: usize,
    count: u32,
)
    requires { IsWidth W × (to_step ≤ 4) × (from + W ≤ length src.now) × Within count to to_step W (length dst.old) }
    ensures { dst.new ≡ moved count W src.now from 0 dst.old to to_step }
{
    let mut one = [0u8; 4];
    element::move_element::<W>(src, from, &mut one, 0);
    if to_step == W {
        move_each::<W>(&one, 0, 0, dst, to, W, count);
    } else {
        move_each::<W>(&one, 0, 0, dst, to, to_step, count);
    }
}

// Elements that stand one behind the other in both slices, as words of 4 bytes: two elements of 2 bytes are a word, and an odd one
// over is moved alone. One copy of the whole slice would ask for a memmove, which a bare board may not have.
fn copy<const W: usize>(src: &[u8], from: usize, dst: &mut [u8], to: usize, count: u32)
    requires { IsWidth W × (from + count * W ≤ length src.now) × (to + count * W ≤ length dst.old) }
    ensures { dst.new ≡ sets dst.old to (take (count * W) (drop from src.now)) }
{
    if W == 4 {
        move_each::<4>(src, from, 4, dst, to, 4, count);
    } else {
        move_each::<4>(src, from, 4, dst, to, 4, count / 2);
        if count % 2 == 1 {
            let last = (count - 1) as usize * 2;
            element::move_element::<2>(src, from + last, dst, to + last);
        }
    }
}

// `count` elements of 4 bytes, or of 2: from `src` at `from`, `from_step` apart, to `dst` at `to`, `to_step` apart. Elements
// that stand one behind the other on both sides are one block; of those that go to one place only the last stays there.
fn move_elements<const W: usize>(
    src: &[u8],
    from: usize,
    from_step: usize,
    dst: &mut [u8],
    to: usize,
    to_step: usize,
    count: u32,
)
    requires { IsWidth W × (from_step ≤ 4) × (to_step ≤ 4) × Within count from from_step W (length src.now)
        × Within count to to_step W (length dst.old) }
    ensures { dst.new ≡ moved count W src.now from from_step dst.old to to_step }
{
    if count == 0 {
        return;
    }
    if to_step == 0 {
        let last = from + (count - 1) as usize * from_step;
        element::move_element::<W>(src, last, dst, to);
    } else if from_step == 0 {
        fill::<W>(src, from, dst, to, to_step, count);
    } else if (from_step == W) & (to_step == W) {
        copy::<W>(src, from, dst, to, count);
    } else {
        move_each::<W>(src, from, from_step, dst, to, to_step, count);
    }
}

// The same of elements whose bytes are known only when they are met.
pub(crate) fn move_sized(
    element: usize,
    src: &[u8],
    from: usize,
    from_step: usize,
    dst: &mut [u8],
    to: usize,
    to_step: usize,
    count: u32,
)
    requires { IsWidth element × (from_step ≤ 4) × (to_step ≤ 4) × Within count from from_step element (length src.now)
        × Within count to to_step element (length dst.old) }
    ensures { dst.new ≡ moved count element src.now from from_step dst.old to to_step }
{
    if element == 4 {
        move_elements::<4>(src, from, from_step, dst, to, to_step, count);
    } else {
        move_elements::<2>(src, from, from_step, dst, to, to_step, count);
    }
}
