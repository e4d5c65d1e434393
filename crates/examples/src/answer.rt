// Answers as the values of a form: 1, number and place of a refusal, or 0, two values to pass over, and those of the answer.
use card::run::RanLent;
use cue::CompileAnswer;
use independent::Independence;
use lbp16::Refusal;
use packet::judge::Verdict;
use salvage::SalvageAnswer;

// The first value of an answer.
pub(crate) fn first(values: [u64; 9]) -> u64 {
    values[3]
}

pub(crate) fn is_set(values: [u64; 9]) -> bool {
    values[0] == 1
}

fn refused(r: Refusal) -> [u64; 9] {
    [1, u64::from(r.rule.number()), r.place, 0, 0, 0, 0, 0, 0]
}

// The reply's bytes twice, and the elements moved.
pub(crate) fn of_packet(ran: RanLent) -> [u64; 9] {
    match ran.answer {
        Ok(n) => [0, 0, 0, n, n, ran.elements, 0, 0, 0],
        Err(r) => refused(r),
    }
}

pub(crate) fn of_burst(answer: Verdict) -> [u64; 9] {
    match answer {
        Ok(_) => [0; 9],
        Err(r) => refused(r),
    }
}

// The output's bytes, and its packets: how many, whether not one, and whether any, twice.
pub(crate) fn of_list(answer: CompileAnswer) -> [u64; 9] {
    match answer {
        Ok(packed) => {
            let n = packed.packets as u64;
            let bytes = packed.bytes as u64;
            [0, 0, 0, bytes, n, u64::from(n != 1), n, n, 0]
        }
        Err(r) => refused(r),
    }
}

// The bytes kept.
pub(crate) fn of_salvage(answer: SalvageAnswer) -> [u64; 9] {
    match answer {
        Ok(kept) => [0, 0, 0, kept.bytes as u64, 0, 0, 0, 0, 0],
        Err(r) => refused(r),
    }
}

// The word's two bytes.
pub(crate) fn of_word(written: Result<u16, Refusal>) -> [u64; 9] {
    match written {
        Ok(w) => {
            let [low, high] = w.to_le_bytes();
            [0, 0, 0, u64::from(low), u64::from(high), 0, 0, 0, 0]
        }
        Err(r) => refused(r),
    }
}

// The header's two halves.
pub(crate) fn of_header(written: Result<u32, Refusal>) -> [u64; 9] {
    match written {
        Ok(w) => [0, 0, 0, u64::from(w / 65536), u64::from(w), 0, 0, 0, 0],
        Err(r) => refused(r),
    }
}

// Whether they are independent; whether one is refused, which, number and place; whether they clash, and where.
pub(crate) fn of_lists(answer: Independence) -> [u64; 9] {
    match answer {
        Independence::Independent => [1, 0, 0, 0, 0, 0, 0, 0, 0],
        Independence::Refused { list, refusal } => {
            let number = u64::from(refusal.rule.number());
            [0, 1, list, number, refusal.place, 0, 0, 0, 0]
        }
        Independence::Clash(index) => [0, 0, 0, 0, 0, 1, index, 0, 0],
    }
}
