// Cells of 4 bytes, one behind the other or one again and again, read into words and written from them.
ghost use Rattle.std.specs.Prelude.{true, ◌≡◌, ◌∷◌, ◌-◌, ◌*◌, ◌^◌, ◌≤◌, ◌<◌, length, drop};
ghost use Rattle.card.specs.Cells.{cells_within, cells, cells_read, filled, cells_written};

use crate::element;

// Whether n cells from `from` on, `stride` apart, end within so many bytes. The tests come in an order in which the sum can't be too
// large.
fn cells_within(n: usize, from: usize, stride: usize, bytes: usize) -> bool
    requires { (n * 4 < 2 ^ 63) × (bytes < 2 ^ 63) }
    ensures { result ≡ cells_within n from stride bytes }
{
    if n == 0 {
        return true;
    }
    if (4 < stride) | (bytes < from) {
        return false;
    }
    from + (n - 1) * stride + 4 <= bytes
}

fn fetch_cells(store: &[u8], from: usize, stride: usize, answer: &mut [u32])
    requires { (1 ≤ length answer.old) × (cells_within (length answer.old - 1) from stride (length store.now) ≡ true) }
    ensures { answer.new ≡ 0 ∷ cells (length answer.old - 1) from stride store.now }
{
    answer[0] = 0;
    let mut at = from;
    for i in 1..answer.len() {
        answer[i] = element::fetch4(store, at);
        at += stride;
    }
}

// The cells from `from` on, `stride` apart, follow the first word of the answer, which is 0. Where one would be past the end, or
// there is no first word, nothing is done. Cells one behind the other have a call of their own, in which the compiler knows the stride.
pub fn read_cells(store: &[u8], from: usize, stride: usize, answer: &mut [u32])
    ensures { answer.new ≡ cells_read store.now from stride answer.old }
{
    if answer.len() == 0 {
        return;
    }
    if !cells_within(answer.len() - 1, from, stride, store.len()) {
        return;
    }
    if stride == 4 {
        fetch_cells(store, from, 4, answer);
    } else {
        fetch_cells(store, from, stride, answer);
    }
}

fn store_cells(words: &[u32], store: &mut [u8], from: usize, stride: usize)
    requires { (1 ≤ length words.now) × (cells_within (length words.now - 1) from stride (length store.old) ≡ true) }
    ensures { store.new ≡ filled (drop 1 words.now) from stride store.old }
{
    let mut at = from;
    for i in 1..words.len() {
        element::store4(store, at, words[i]);
        at += stride;
    }
}

// Of words that go into one cell the last stays there.
fn store_last(words: &[u32], store: &mut [u8], at: usize)
    requires { (1 ≤ length words.now) × (cells_within (length words.now - 1) at 0 (length store.old) ≡ true) }
    ensures { store.new ≡ filled (drop 1 words.now) at 0 store.old }
{
    if words.len() == 1 {
        return;
    }
    let last = words[words.len() - 1];
    element::store4(store, at, last);
}

// The words after the first go into the cells from `from` on, `stride` apart. Where one would be past the end, nothing is done.
// Cells one behind the other have a call of their own, in which the compiler knows the stride, and so has one cell.
pub fn write_each(words: &[u32], store: &mut [u8], from: usize, stride: usize)
    ensures { store.new ≡ cells_written words.now from stride store.old }
{
    if words.len() == 0 {
        return;
    }
    if !cells_within(words.len() - 1, from, stride, store.len()) {
        return;
    }
    if stride == 4 {
        store_cells(words, store, from, 4);
    } else if stride == 0 {
        store_last(words, store, from);
    } else {
        store_cells(words, store, from, stride);
    }
}
