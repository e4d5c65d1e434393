// Salvaging a damaged cue list, as C programs call it.
ghost use Rattle.std.specs.Prelude.{◌≡◌};
ghost use Rattle.head.specs.SalvageExports.{salvage_left, export_salvage};

use crate::numbers::numbers_of;

// `bytes` is the output's length, or the refusal's place; `entries` is 0 if refused.
#[unsafe(no_mangle)]
pub extern "C" fn head_salvage(
    list: &[u8],
    out: &mut [u8],
    log: &mut [u64],
    bytes: &mut u64,
    entries: &mut u64,
) -> u32
    ensures { salvage_left result bytes.new entries.new out.new log.new
        ≡ export_salvage list.now out.old log.old }
{
    let given = numbers_of(salvage::salvage(list, out, log));
    *bytes = given.1;
    *entries = given.2;
    given.0
}
