// The lamp panel, for C.
ghost use Rattle.std.specs.Prelude.{◌≡◌};
ghost use Rattle.panel.specs.Masks.{reported};
ghost use Rattle.head.specs.Exports.{given};
ghost use Rattle.head.specs.PanelExports.{export_start, tally_left, export_reading};

use panel::{masks, reading};

// Starts exchanges for the channels in `asked`; `mask` is written only if accepted.
#[unsafe(no_mangle)]
pub extern "C" fn head_panel_start(asked: u8, running: u8, mask: &mut u8) -> u32
    ensures { given result mask.new ≡ export_start asked running mask.old }
{
    let answer = masks::start(asked, running);
    match answer {
        Ok(m) => {
            *mask = m;
            0
        }
        Err(r) => r.rule.number(),
    }
}

// What became of the channels in `asked`.
#[unsafe(no_mangle)]
pub extern "C" fn head_panel_report(
    asked: u8,
    faults: u8,
    asked_count: &mut u8,
    failed_count: &mut u8,
    lowest: &mut u8,
)
    ensures { tally_left asked_count.new failed_count.new lowest.new ≡ reported asked faults }
{
    let tally = masks::report(asked, faults);
    *asked_count = tally.asked;
    *failed_count = tally.failed;
    *lowest = tally.lowest;
}

// A field's reading, as the bits of a float; they are written only if accepted.
#[unsafe(no_mangle)]
pub extern "C" fn head_panel_reading(
    kind: u32,
    width: u32,
    value: u64,
    minimum_bits: u32,
    maximum_bits: u32,
    reading_bits: &mut u32,
) -> u32
    ensures { given result reading_bits.new ≡ export_reading kind width value minimum_bits maximum_bits reading_bits.old }
{
    let answer = reading::reading(kind, width, value, minimum_bits, maximum_bits);
    match answer {
        Ok(x) => {
            *reading_bits = f32::to_bits(x);
            0
        }
        Err(refusal) => refusal.rule.number(),
    }
}
