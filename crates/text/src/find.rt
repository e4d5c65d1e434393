// Texts taken apart.
ghost use Rattle.std.specs.Prelude.{◌≡◌, ◌==◌, ◌<◌, length, drop, position, MatchOption};
ghost use Rattle.std.specs.Cmp.Lexicographic.{pointwise};
ghost use Rattle.text.specs.Find.{bytes_before, string_at, hex_value, same_bytes};

// The first b's place.
fn first_of(s: &[u8], b: u8) -> Option<usize>
    ensures { result ≡ position (λ c. c == b) s.now }
{
    s.iter().position(|&c| c == b)
}

// How many bytes stand before the first b: all of them where there is none.
pub fn bytes_before(s: &[u8], b: u8) -> usize
    ensures { result ≡ bytes_before b s.now }
{
    first_of(s, b).unwrap_or(s.len())
}

// What stands from a place on, past the end nothing.
pub fn rest(s: &[u8], from: usize) -> &[u8]
    ensures { result.now ≡ drop from s.now }
{
    s.get(from..).unwrap_or(&[])
}

// The string at a place of a memory, up to its NUL.
pub fn string(memory: &[u8], place: usize) -> &[u8]
    ensures { result.now ≡ string_at memory.now place }
{
    let text = rest(memory, place);
    let n = bytes_before(text, 0);
    &text[..n]
}

// The value of a hexadecimal digit of either case.
#[tactic(auto, using(crate::proofs::FindLaws::hex_ranged, std::proofs::lemmas::Bool::Decides::nat_tests))]
pub fn hex_value(c: u8) -> Option<u8>
    ensures { MatchOption result (hex_value c ≡ 16) (λ d. (d ≡ hex_value c) × (d < 16)) }
{
    match c {
        b'0'..=b'9' => Some(c - b'0'),
        b'A'..=b'F' => Some(c - b'A' + 10),
        b'a'..=b'f' => Some(c - b'a' + 10),
        _ => None,
    }
}

// Whether two texts of one length are the same, a byte at a time.
fn same_short(a: &[u8], b: &[u8]) -> bool
    requires { length a.now ≡ length b.now }
    ensures { result ≡ same_bytes a.now b.now }
{
    for (i, &x) in a.iter().enumerate() {
        if x != b[i] {
            return false;
        }
    }
    true
}

// Whether as many groups of eight bytes are the same, a group at a time.
fn same_eights(a: &[[u8; 8]], b: &[[u8; 8]]) -> bool
    requires { length a.now ≡ length b.now }
    ensures { result ≡ pointwise same_bytes a.now b.now }
{
    for (i, x) in a.iter().enumerate() {
        if *x != b[i] {
            return false;
        }
    }
    true
}

// Whether two texts are the same. Eight bytes at a time: the library's `==` calls a function for each two that are as long and begin alike.
#[tactic(auto, using(crate::proofs::FindLaws::by_eights, crate::proofs::FindLaws::same_lengths))]
pub fn same(a: &[u8], b: &[u8]) -> bool
    ensures { result ≡ same_bytes a.now b.now }
{
    if a.len() != b.len() {
        return false;
    }
    let (groups, rest) = a.as_chunks::<8>();
    let (others, other_rest) = b.as_chunks::<8>();
    same_short(rest, other_rest) && same_eights(groups, others)
}
