// A part of one byte: the short ways.
ghost use Rattle.std.specs.Prelude.{◌≡◌, [], ◌∷◌, true, false, length, take, drop, get_or};
ghost use Rattle.packet.specs.Bytes.{number};
ghost use Rattle.cue.specs.Untrusted.{any_of};
ghost use Rattle.parts.specs.State.{state_bytes, bad_numbers};
ghost use Rattle.parts.specs.Inside.{kept_at, unfit_tests, Marked, Waits, Single};

use crate::state::Kept;
use crate::{layout, state};
use cue::records::{MOST, READ_MARK, WRITE_MARK};
use cue::{records, untrusted};
use packet::bytes;
use packet::command::LIMIT;

// The most bytes of a packet or its reply, as the state has them.
const MOST_BYTES: u16 = LIMIT as u16;

// Whether the state is not one of an open packet and a record to come, with each number in its range and as it is written.
fn unfit(s: &[u8]) -> bool
    requires { length s.now ≡ state_bytes }
    ensures { result ≡ any_of (unfit_tests s.now) }
{
    let index = bytes::pair_at(s, layout::INDEX) as usize
        + 65536 * bytes::pair_at(s, layout::INDEX_HIGH) as usize;
    let size = bytes::pair_at(s, layout::PACKET);
    let reply = bytes::pair_at(s, layout::REPLY);
    let word = bytes::pair_at(s, layout::WORD);
    (s[layout::STANDS] != 0)
        | ((MOST <= index)
            | ((7 < s[layout::SPACE])
                | ((127 < s[layout::COUNT])
                    | ((MOST_BYTES < reply)
                        | ((MOST_BYTES < size)
                            | ((size < word)
                                | ((size == 0)
                                    | ((1 < s[layout::WRITE]) | (1 < s[layout::UNLOCKED])))))))))
}

// The eight bytes behind the record's mark, as a number.
fn behind_mark(s: &[u8]) -> u64
    requires { length s.now ≡ state_bytes }
    ensures { result ≡ number (take 8 (drop 4 s.now)) }
{
    u64::from_le_bytes([s[4], s[5], s[6], s[7], s[8], s[9], s[10], s[11]])
}

// Whether a record with this mark has more than `at` bytes and one.
fn longer(mark: u16, at: usize) -> bool
    ensures { result ≡ true → Marked mark at }
{
    if mark == WRITE_MARK {
        return at < 9;
    }
    if mark == READ_MARK {
        return at < 5;
    }
    false
}

// Whether the record is still not whole with `b`, and the bytes behind those collected are 0.
fn waits(s: &[u8], b: u8) -> bool
    requires { length s.now ≡ state_bytes }
    ensures { result ≡ true → Waits (get_or s.now 1 0) (take 10 (drop 2 s.now)) b }
{
    let at = s[layout::COLLECTED] as usize;
    let behind = behind_mark(s);
    if at < 2 {
        if (behind != 0) | (s[3] != 0) {
            return false;
        }
        if at == 0 {
            return s[2] == 0;
        }
        return longer(s[2] as u16 + 256 * b as u16, at);
    }
    if longer(bytes::pair_at(s, 2), at) {
        return behind >> (8 * at - 16) == 0;
    }
    false
}

// Takes the byte if it only lengthens the record; whether it did.
pub(crate) fn lengthened(s: &mut [u8], b: u8) -> bool
    requires { length s.old ≡ state_bytes }
    ensures { Single result s.old (b ∷ []) false s.new }
{
    if unfit(s) {
        return false;
    }
    if !waits(s, b) {
        return false;
    }
    let at = s[layout::COLLECTED];
    let place = layout::BYTES + at as usize;
    s[place] = b;
    s[layout::COLLECTED] = at + 1;
    true
}

// Takes the byte if it completes a good record that joins the open packet; whether it did. `k` is what the state holds.
pub(crate) fn completed(k: Kept, part: &[u8], last: bool, s: &mut [u8]) -> bool
    requires { (length s.old ≡ state_bytes) × (k ≡ kept_at s.old)
        × (any_of (bad_numbers k.stands k.collected k.index k.packer) ≡ false) × (k.stands ≡ 0) }
    ensures { Single result s.old part.now last s.new }
{
    if (part.len() != 1) | last {
        return false;
    }
    let mut rest = k.bytes;
    let at = k.collected;
    rest[at] = part[0];
    let shown = at + 1;
    let index = k.index;
    if records::record_refusal(&rest[..shown], index).is_err() {
        return false;
    }
    let packer = untrusted::turned(k.packer, records::record_at(&rest[..shown]));
    if packer.packets == 2 {
        return false;
    }
    untrusted::put(packer, &rest[..shown], &mut s[layout::OPEN..]);
    let after = Kept {
        stands: 0,
        collected: 0,
        index: index + 1,
        packer,
        ..k
    };
    state::save(after, s);
    true
}
