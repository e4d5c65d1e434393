// A recorded show judged, for C.
ghost use Rattle.std.specs.Prelude.{◌≡◌};
ghost use Rattle.recording.specs.Recording.{verdict_listed};
ghost use Rattle.head.specs.RecordingExports.{judged_numbers, judge_left, export_judge};

use crate::lent;
use crate::numbers::Numbers;
use lbp16::pointer::Pointers;
use recording::Judgment;

fn numbers_of(j: Judgment) -> Numbers
    ensures { result ≡ judged_numbers (verdict_listed j) }
{
    match j {
        Judgment::Yes(n) => Numbers(0, n, 0),
        Judgment::Refused(r) => Numbers(r.rule.number(), 0, r.place),
        Judgment::BadPacket(i) => Numbers(61, i, 0),
        Judgment::BadLength(i) => Numbers(62, i, 0),
        Judgment::BadByte { packet, place } => Numbers(63, packet, place),
        Judgment::Cut(part) => Numbers(64, part, 0),
        Judgment::Unmarked(part) => Numbers(65, part, 0),
    }
}

// Judges a recorded show. `index` is the packets judged if all is well, else the packet or the part at fault; `place` is a wrong
// byte's place in its reply.
#[unsafe(no_mangle)]
pub extern "C" fn head_judge(
    show: &[u8],
    store: &mut [u8],
    pointers: &mut [u32],
    index: &mut u64,
    place: &mut u64,
) -> u32
    ensures { judge_left result index.new place.new store.new pointers.new
        ≡ export_judge show.now store.old pointers.old }
{
    if pointers.len() != 8 {
        *index = 0;
        *place = 0;
        return 1;
    }
    let p = Pointers::from_lent(pointers);
    let judged = recording::judge(show, store, p);
    let after = judged.pointers;
    lent::put_pointers(after, pointers);
    let judgment = judged.judgment;
    let given = numbers_of(judgment);
    *index = given.1;
    *place = given.2;
    given.0
}
