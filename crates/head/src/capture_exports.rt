// A capture made into a recording, as C programs call it.
ghost use Rattle.std.specs.Prelude.{◌≡◌};
ghost use Rattle.head.specs.CaptureExports.{capture_left, export_capture, SameExport};

use crate::numbers::numbers_of;

// `bytes` is the recording's length, or the refusal's place; `packets` is 0 if refused.
#[unsafe(no_mangle)]
pub extern "C" fn head_capture(
    capture: &[u8],
    out: &mut [u8],
    frames: &mut [u32],
    bytes: &mut u64,
    packets: &mut u64,
) -> u32
    ensures captured { capture_left result bytes.new packets.new out.new frames.new
        ≡ export_capture capture.now out.old frames.old }
    ensures same_recording { SameExport capture.now out.old frames.old
        (capture_left result bytes.new packets.new out.new frames.new) }
{
    let given = numbers_of(capture::read(capture, out, frames));
    *bytes = given.1;
    *packets = given.2;
    given.0
}
