// What C programs call; include/head.h declares it. A function that can refuse returns the refusal's number, 0 if accepted.
#![tactic(auto)]

mod capture_exports;
mod cue_text_exports;
mod independent_exports;
mod interlock_exports;
mod lent;
mod list_reason_exports;
mod numbers;
mod packet_text_exports;
mod panel_exports;
pub mod parts_exports;
mod reason_exports;
mod recording_exports;
mod salvage_exports;
mod sentence_exports;
mod spi_exports;
pub mod sserial_exports;
mod tight_exports;

ghost use Rattle.std.specs.Prelude.{◌≡◌, ◌≤◌};
ghost use Rattle.card.specs.Run.{most_elements};
ghost use Rattle.spi.specs.Spi.{most_in_burst};
ghost use Rattle.cue.specs.Demand3.{Demand3};
ghost use Rattle.head.specs.Exports.{given, export_check, run_left, export_run, elements_given, spi_left, export_spi};
ghost use Rattle.head.specs.Exports.{compile_left, export_compile, fields_left, export_fields, export_word, word_given};

use card::{check, run};
use lbp16::word;
use numbers::numbers_of;

// Checks one packet: what a run of it would answer on this store and these pointers, with a reply room of 1,472 bytes.
// `value` is the reply length, or the refusal's place.
#[unsafe(no_mangle)]
pub extern "C" fn head_check(packet: &[u8], store: &[u8], pointers: &[u32], value: &mut u64) -> u32
    ensures { given result value.new ≡ export_check packet.now store.now pointers.now }
{
    let given = numbers_of(check::check_lent(packet, store, pointers));
    *value = given.1;
    given.0
}

// Runs one packet. `pointers` are those of spaces 0, 2, 6 and 7, then those of their info areas; `value` is the reply length, or the refusal's place.
#[unsafe(no_mangle)]
pub extern "C" fn head_run(
    packet: &[u8],
    store: &mut [u8],
    pointers: &mut [u32],
    reply: &mut [u8],
    value: &mut u64,
    elements: &mut u64,
) -> u32
    ensures ran { run_left result value.new elements.new store.new pointers.new reply.new
        ≡ export_run packet.now store.old pointers.old reply.old }
    ensures summed { elements.new ≡ elements_given result packet.now }
    ensures bounded { elements.new ≤ most_elements }
{
    let ran = run::run_lent(packet, store, pointers, reply);
    *elements = ran.elements;
    let answer = ran.answer;
    let given = numbers_of(answer);
    *value = given.1;
    given.0
}

// Runs one SPI burst on space 0. `value` is the number of elements done, or the refusal's place.
#[unsafe(no_mangle)]
pub extern "C" fn head_spi(
    words: &[u32],
    store: &mut [u8],
    answer: &mut [u32],
    value: &mut u64,
) -> u32
    ensures left { spi_left result value.new store.new answer.new
        ≡ export_spi words.now store.old answer.old }
    ensures bounded { value.new ≤ most_in_burst }
{
    let given = numbers_of(spi::burst(words, store, answer));
    *value = given.1;
    given.0
}

// The fields of a command word, as seven bytes.
#[unsafe(no_mangle)]
pub extern "C" fn head_fields(word: u16, fields: &mut [u8]) -> u32
    ensures { fields_left result fields.new ≡ export_fields word fields.old }
{
    if fields.len() != 7 {
        return 13;
    }
    lent::put_fields(word::fields_of(word), fields);
    0
}

// The command word of seven such bytes; `word` is written only if accepted.
#[unsafe(no_mangle)]
pub extern "C" fn head_word(fields: &[u8], word: &mut u16) -> u32
    ensures { given result word.new ≡ word_given (export_word fields.now) word.old }
{
    if lent::bad_fields(fields) {
        return 13;
    }
    let written = word::word_of(lent::fields_from(fields));
    match written {
        Ok(w) => {
            *word = w;
            0
        }
        Err(r) => r.rule.number(),
    }
}

// Compiles a cue list. `bytes` is the output's length, or the refusal's place; `packets` is 0 if refused.
#[unsafe(no_mangle)]
pub extern "C" fn head_compile(
    list: &[u8],
    out: &mut [u8],
    bytes: &mut u64,
    packets: &mut u64,
) -> u32
    ensures compiled { compile_left result bytes.new packets.new out.new
        ≡ export_compile list.now out.old }
    ensures demand3 { result ≡ 0 → Demand3 list.now out.new bytes.new packets.new }
{
    let given = numbers_of(cue::compile(list, out));
    *bytes = given.1;
    *packets = given.2;
    given.0
}
