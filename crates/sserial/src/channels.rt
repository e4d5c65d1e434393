// The registers of the eight channels, three words each, taken from lent words and put back.
ghost use Rattle.std.specs.Prelude.{◌≡◌, ◌+◌, ◌*◌, ◌≤◌, ◌<◌, length, take, drop, set};
ghost use Rattle.std.proofs.lemmas.List.Edits.{sets};
ghost use Rattle.sserial.specs.Inside.{rows_from, flat};

fn row_of(words: &[u32], i: usize) -> [u32; 3]
    requires { 3 * i + 3 ≤ length words.now }
    ensures { result ≡ take 3 (drop (3 * i) words.now) }
{
    let at = 3 * i;
    [words[at], words[at + 1], words[at + 2]]
}

pub(crate) fn channels_of(words: &[u32]) -> [[u32; 3]; 8]
    requires { length words.now ≡ 24 }
    ensures { result ≡ rows_from 8 0 words.now }
{
    [
        row_of(words, 0),
        row_of(words, 1),
        row_of(words, 2),
        row_of(words, 3),
        row_of(words, 4),
        row_of(words, 5),
        row_of(words, 6),
        row_of(words, 7),
    ]
}

pub(crate) fn with_channel(all: [[u32; 3]; 8], channel: usize, words: [u32; 3]) -> [[u32; 3]; 8]
    requires { channel < 8 }
    ensures { result ≡ set all channel words }
{
    let mut out = all;
    out[channel] = words;
    out
}

fn put_row(words: &mut [u32], i: usize, row: [u32; 3])
    requires { 3 * i + 3 ≤ length words.old }
    ensures { (words.new ≡ sets words.old (3 * i) row) × (length row ≡ 3) }
{
    let at = 3 * i;
    words[at] = row[0];
    words[at + 1] = row[1];
    words[at + 2] = row[2];
}

pub(crate) fn put_channels(all: [[u32; 3]; 8], words: &mut [u32])
    requires { length words.old ≡ 24 }
    ensures { words.new ≡ flat all }
{
    for (i, &row) in all.iter().enumerate() {
        put_row(words, i, row);
    }
}
