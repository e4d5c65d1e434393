// Hexadecimal digits as bytes.
use packet::bytes;
use text::find;

// What a letter of a text stands for: a digit, or a byte of the address.
#[derive(Clone, Copy, Debug, PartialEq, Eq)]
enum Letter {
    Digit(u8),
    Low,
    High,
    Blank,
    Other,
}

// The bytes of so many digits; bad where anything else than digits and blanks stood among them. Past 8,192 bytes they start again,
// since the room is fixed.
#[derive(Clone, Copy)]
pub(crate) struct Data {
    bytes: [u8; 8192],
    digits: usize,
    bad: bool,
}

impl Data {
    pub(crate) fn none() -> Data {
        Data {
            bytes: [0; 8192],
            digits: 0,
            bad: false,
        }
    }

    // The bytes whose both digits came.
    pub(crate) fn whole(&self) -> &[u8] {
        input::front(&self.bytes, self.digits / 2)
    }

    // The first two bytes, 0 where no digits came; past 8,192 bytes those that stand there.
    pub(crate) fn first_pair(&self) -> u16 {
        bytes::pair_at(&self.bytes, 0)
    }

    // Half a byte is bad too.
    pub(crate) fn is_bad(&self) -> bool {
        self.bad | (self.digits % 2 == 1)
    }

    // A digit more.
    fn put(&mut self, digit: u8) {
        let n = self.digits % 16384;
        self.bytes[n / 2] = self.bytes[n / 2] % 16 * 16 + digit % 16;
        self.digits = n + 1;
    }

    // A byte of an address in the place of a digit.
    fn put_byte(&mut self, byte: u8) {
        let n = self.digits % 16384;
        self.bytes[n / 2] = byte;
        self.digits = n + 1;
    }

    fn put_letter(&mut self, letter: Letter, address: u16) {
        match letter {
            Letter::Digit(digit) => self.put(digit),
            Letter::Low => self.put_byte((address % 256) as u8),
            Letter::High => self.put_byte((address / 256) as u8),
            Letter::Blank => {}
            Letter::Other => self.bad = true,
        }
    }

    // A text's digits behind those that there are.
    pub(crate) fn put_text(&mut self, text: &[u8], address: u16) {
        for &c in text {
            self.put_letter(letter_of(c), address);
        }
    }

    // The same so many times, the address rising by 4.
    pub(crate) fn put_times(&mut self, text: &[u8], times: u16) {
        for i in 0..times {
            self.put_text(text, i % 16384 * 4);
        }
    }
}

// The letters of LL and HH are the bytes of an address. A text's bytes begin behind its =, and a line's end is no letter.
fn letter_of(c: u8) -> Letter {
    if let Some(digit) = find::hex_value(c) {
        return Letter::Digit(digit);
    }
    match c {
        b'L' => Letter::Low,
        b'H' => Letter::High,
        b' ' | b'\n' | b'=' => Letter::Blank,
        _ => Letter::Other,
    }
}
