// The walk over the frames, which both passes make.
ghost use Rattle.std.specs.Prelude.{◌≡◌, true};
ghost use Rattle.capture.specs.File.{file_listed};
ghost use Rattle.capture.specs.Capture.{heard, capture_listed};
ghost use Rattle.capture.specs.Inside.{said_of, room_after, numbers_after, Ready};

use crate::file::File;
use crate::turn::Progress;
use crate::{Recorded, datagram, file, turn, write};
use lbp16::{Refusal, Rule};

// Over the bytes behind the file's header.
pub(crate) fn walk(
    frames: &[u8],
    f: File,
    write: bool,
    out: &mut [u8],
    numbers: &mut [u32],
) -> Result<Recorded, Refusal>
    requires { write ≡ true → Ready (heard (file_listed f) frames.now) out.old numbers.old }
    ensures value { capture_listed result ≡ said_of (heard (file_listed f) frames.now) }
    ensures out_after { out.new ≡ room_after write (heard (file_listed f) frames.now) out.old }
    ensures numbers_after { numbers.new ≡ numbers_after write (heard (file_listed f) frames.now) numbers.old }
{
    let mut p = Progress {
        card: None,
        waiting: false,
        bytes: 0,
        packets: 0,
    };
    let mut k: usize = 1;
    let mut rest = frames;
    // Where a frame ends is known only once its header is read, and what it is depends on those before it.
    while rest.len() != 0 {
        let Some(n) = file::frame_bytes(rest, f.big) else {
            return Err(Rule::FrameCut.at(k as u64));
        };
        let frame = &rest[16..n];
        let d = datagram::datagram_in(frame, f.big, f.link);
        match turn::turn_of(p, d) {
            Ok(t) => {
                write::put(frame, d, t, p, k, write, out, numbers);
                p = turn::moved(p, d, t);
            }
            Err(rule) => return Err(rule.at(k as u64)),
        }
        rest = &rest[n..];
        k += 1;
    }
    Ok(Recorded {
        bytes: p.bytes,
        packets: p.packets,
    })
}
