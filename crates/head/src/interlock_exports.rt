// Packets, bursts and cue lists with a guard, for C. A guard is two numbers for each range of the store that nothing may write: its first
// byte and its number of bytes.
ghost use Rattle.std.specs.Prelude.{◌≡◌, ◌≤◌};
ghost use Rattle.card.specs.Run.{most_elements};
ghost use Rattle.interlock.specs.Spared.{Spares};
ghost use Rattle.head.specs.Exports.{given, run_left, spi_left};
ghost use Rattle.head.specs.InterlockExports.{export_guard, export_guarded_check, export_guarded_run, export_guarded_spi, export_guarded_list};

use crate::numbers::numbers_of;

// Whether a guard is sound. `value` is the number of its ranges, or the index of the earliest pair at fault.
#[unsafe(no_mangle)]
pub extern "C" fn head_guard(guard: &[u32], value: &mut u64) -> u32
    ensures { given result value.new ≡ export_guard guard.now }
{
    let given = numbers_of(interlock::guard(guard));
    *value = given.1;
    given.0
}

// `head_check` with a guard.
#[unsafe(no_mangle)]
pub extern "C" fn head_guarded_check(
    packet: &[u8],
    store: &[u8],
    pointers: &[u32],
    guard: &[u32],
    value: &mut u64,
) -> u32
    ensures { given result value.new
        ≡ export_guarded_check packet.now store.now pointers.now guard.now }
{
    let given = numbers_of(interlock::check(packet, store, pointers, guard));
    *value = given.1;
    given.0
}

// `head_run` with a guard. Whatever is sent, every protected byte of the store is as it was.
#[unsafe(no_mangle)]
pub extern "C" fn head_guarded_run(
    packet: &[u8],
    store: &mut [u8],
    pointers: &mut [u32],
    reply: &mut [u8],
    guard: &[u32],
    value: &mut u64,
    elements: &mut u64,
) -> u32
    ensures ran { run_left result value.new elements.new store.new pointers.new reply.new
        ≡ export_guarded_run packet.now store.old pointers.old reply.old guard.now }
    ensures bounded { elements.new ≤ most_elements }
    ensures spared { Spares guard.now store.old store.new }
{
    let ran = interlock::run(packet, store, pointers, reply, guard);
    *elements = ran.elements;
    let answer = ran.answer;
    let given = numbers_of(answer);
    *value = given.1;
    given.0
}

// `head_spi` with a guard, and the same holds.
#[unsafe(no_mangle)]
pub extern "C" fn head_guarded_spi(
    words: &[u32],
    store: &mut [u8],
    answer: &mut [u32],
    guard: &[u32],
    value: &mut u64,
) -> u32
    ensures left { spi_left result value.new store.new answer.new
        ≡ export_guarded_spi words.now store.old answer.old guard.now }
    ensures spared { Spares guard.now store.old store.new }
{
    let given = numbers_of(interlock::burst(words, store, answer, guard));
    *value = given.1;
    given.0
}

// Whether a cue list writes no protected byte. `value` is the number of its records, or the refusal's place.
#[unsafe(no_mangle)]
pub extern "C" fn head_guarded_list(list: &[u8], guard: &[u32], value: &mut u64) -> u32
    ensures { given result value.new ≡ export_guarded_list list.now guard.now }
{
    let given = numbers_of(interlock::list(list, guard));
    *value = given.1;
    given.0
}
