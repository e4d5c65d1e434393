// Bits of a channel's three words, which are read as one number: the low bit of word 0 first.
ghost use Rattle.std.specs.Prelude.{◌≡◌, ◌+◌, ◌*◌, ◌/◌, ◌%◌, ◌^◌, ◌<◌, ◌≤◌};
ghost use Rattle.sserial.specs.Layout.{joined};
ghost use Rattle.sserial.specs.Inside.{Each};

pub(crate) fn power(k: usize) -> u64
    requires { k < 64 }
    ensures { result ≡ 2 ^ k }
{
    1u64 << k
}

// How many of these bits stand in the word that holds bit `at`.
fn within(at: usize, bits: usize) -> usize
    ensures { (result ≤ bits) × (at % 32 + result ≤ 32) × (0 < bits → 0 < result) }
{
    let room = 32 - at % 32;
    if bits < room { bits } else { room }
}

// Bits that stand in one word; the words hold nothing from bit `at` on.
fn put_chunk(words: [u32; 3], at: usize, n: usize, chunk: u64) -> [u32; 3]
    requires { (at < 96) × (at % 32 + n ≤ 32) × (chunk < 2 ^ n) × (joined words < 2 ^ at) × Each (2 ^ 32) words }
    ensures { (joined result ≡ joined words + chunk * 2 ^ at) × Each (2 ^ 32) result }
{
    let mut out = words;
    let k = at / 32;
    let shifted = chunk * power(at % 32);
    out[k] = out[k] + shifted as u32;
    out
}

fn chunk_at(words: [u32; 3], at: usize, n: usize) -> u64
    requires { (at < 96) × (at % 32 + n ≤ 32) × Each (2 ^ 32) words }
    ensures { result ≡ joined words / 2 ^ at % 2 ^ n }
{
    let k = at / 32;
    let word = words[k] as u64;
    word / power(at % 32) % power(n)
}

// A field's bits, above those that the words hold.
pub(crate) fn put(words: [u32; 3], low: usize, width: usize, value: u64) -> [u32; 3]
    requires { (low + width ≤ 96) × (width ≤ 64) × (value < 2 ^ width) × (joined words < 2 ^ low) × Each (2 ^ 32) words }
    ensures { (joined result ≡ joined words + value * 2 ^ low) × Each (2 ^ 32) result }
{
    let mut out = words;
    let mut at = low;
    let mut left = width;
    let mut rest = value;
    // Each turn takes the bits that stand in one word.
    while 0 < left {
        let n = within(at, left);
        let p = power(n);
        let next = put_chunk(out, at, n, rest % p);
        out = next;
        rest = rest / p;
        at += n;
        left -= n;
    }
    out
}

// The bits of a field.
pub(crate) fn get(words: [u32; 3], low: usize, width: usize) -> u64
    requires { (low + width ≤ 96) × (width ≤ 64) × Each (2 ^ 32) words }
    ensures { result ≡ joined words / 2 ^ low % 2 ^ width }
{
    let mut bits = 0u64;
    let mut done: usize = 0;
    // Each turn takes the bits that stand in one word.
    while done < width {
        let at = low + done;
        let n = within(at, width - done);
        bits += chunk_at(words, at, n) * power(done);
        done += n;
    }
    bits
}
