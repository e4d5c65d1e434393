// SPI headers, and one SPI burst on space 0 of a card store.
#![tactic(auto)]

ghost use Rattle.std.specs.Prelude.{◌≡◌, ◌||◌, cond, List, [], ◌∷◌, ℕ, ◌*◌, ◌≤◌, length, replicate};
ghost use Rattle.lbp16.specs.Answer.{Answer, ruled};
ghost use Rattle.lbp16.specs.Space.{registers, row};
ghost use Rattle.lbp16.specs.Word.{bit};
ghost use Rattle.packet.specs.Rules.{first, misaligned, past_end, any_step};
ghost use Rattle.packet.specs.Verdict.{verdict_listed};
ghost use Rattle.card.specs.Cells.{cells_written};
ghost use Rattle.spi.specs.Spi.{header_of, header_written, header_listed, other_command, first_word, burst_steps};
ghost use Rattle.spi.specs.Spi.{burst_refusals, run_burst, burst_left, most_in_burst};

use card::cells;
use card::check::STORE_BYTES;
use lbp16::pointer::Pointer;
use lbp16::{Refusal, Rule};
use packet::judge::Verdict;

const READ: u8 = 0xA;

pub const WRITE: u8 = 0xB;

// The fields of a header word, high bits first; the four lowest bits are unused.
#[derive(Clone, Copy, Debug, PartialEq, Eq)]
pub struct Header {
    pub address: u16,
    pub command: u8,
    pub increment: bool,
    pub count: u8,
}

// Every word has a header; its unused bits are ignored.
pub fn header_of(word: u32) -> Header
    ensures { result ≡ header_of word }
{
    Header {
        address: (word / 65536) as u16,
        command: (word / 4096 % 16) as u8,
        increment: word / 2048 % 2 == 1,
        count: (word / 16 % 128) as u8,
    }
}

fn other_command(h: Header) -> bool
    ensures { result ≡ other_command h }
{
    (h.command != READ) & (h.command != WRITE)
}

fn increment_bit(h: Header) -> u32
    ensures { (result ≡ bit h.increment * 2048) × (result ≤ 2048) }
{
    u32::from(h.increment) * 2048
}

// Refused with 32 for another command, with 33 for a count outside 1 to 127.
pub fn header_word(h: Header) -> Result<u32, Refusal>
    ensures { header_listed result ≡ header_written h }
{
    if other_command(h) {
        return Err(Rule::BurstCommand.at(0));
    }
    if (h.count == 0) | (127 < h.count) {
        return Err(Rule::BurstCount.at(0));
    }
    let address = h.address as u32;
    let command = h.command as u32;
    let count = h.count as u32;
    Ok(address * 65536 + command * 4096 + increment_bit(h) + count * 16)
}

// 0 where no word was sent.
fn first_word(words: &[u32]) -> u32
    ensures { result ≡ first_word words.now }
{
    words.first().copied().unwrap_or(0)
}

// From one cell to the next.
fn stride_of(h: Header) -> usize
    ensures { (result ≡ cond h.increment 4 0) × (result ≤ 4) }
{
    if h.increment { 4 } else { 0 }
}

// The bytes from the address to the end of the furthest cell.
fn span_of(h: Header) -> u32
    ensures { (result ≡ cond h.increment (h.count * 4) 4) × (result ≤ 1020) }
{
    if h.increment { h.count as u32 * 4 } else { 4 }
}

// Refusal 35, of all promised cells. They rise from the address, so the last is the furthest.
fn out_of_place(h: Header) -> bool
    ensures { (words : List ℕ) → result ≡ (misaligned (row registers) h.address || any_step past_end (burst_steps h h.count words)) }
{
    let address = h.address as u32;
    (address % 4 != 0) | ((h.count != 0) & (Pointer::REGISTERS < address + span_of(h)))
}

// The first of rules 1 and 31 to 35 that refuses.
pub fn refusal_of(words: &[u32], store: &[u8], answer: &[u32]) -> Result<(), Rule>
    ensures { ruled result ≡ first (burst_refusals words.now store.now answer.now) }
{
    let h = header_of(first_word(words));
    let sent = words.len();
    let promised = 1 + h.count as usize;
    if (store.len() != STORE_BYTES) | (answer.len() != sent) {
        return Err(Rule::State);
    }
    if sent == 0 {
        return Err(Rule::BurstEmpty);
    }
    if other_command(h) {
        return Err(Rule::BurstCommand);
    }
    if h.count == 0 {
        return Err(Rule::BurstCount);
    }
    if promised < sent {
        return Err(Rule::BurstLength);
    }
    if out_of_place(h) {
        return Err(Rule::BurstAddress);
    }
    Ok(())
}

// The words after the header go into the cells from `from` on, and all words of the answer are 0.
fn write_cells(words: &[u32], store: &mut [u8], from: usize, stride: usize, answer: &mut [u32])
    ensures store_after { store.new ≡ cells_written words.now from stride store.old }
    ensures answer_after { answer.new ≡ replicate (length answer.old) 0 }
{
    answer.fill(0);
    cells::write_each(words, store, from, stride);
}

// The whole burst is checked before anything is done. Where fewer words came than promised, those are done. The answer is the number
// of elements done, or the refusal.
pub fn burst(words: &[u32], store: &mut [u8], answer: &mut [u32]) -> Verdict
    ensures left { burst_left result store.new answer.new ≡ run_burst words.now store.old answer.old }
    ensures bounded { (n : ℕ) → verdict_listed result ≡ Answer.accepted (n ∷ []) → n ≤ most_in_burst }
{
    if let Err(rule) = refusal_of(words, store, answer) {
        return Err(rule.at(0));
    }
    let h = header_of(first_word(words));
    let from = h.address as usize;
    let stride = stride_of(h);
    let came = (words.len() - 1) as u64;
    if h.command == WRITE {
        write_cells(words, store, from, stride, answer);
        return Ok(came);
    }
    cells::read_cells(store, from, stride, answer);
    Ok(came)
}
