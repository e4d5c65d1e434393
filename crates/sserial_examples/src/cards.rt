// Card memories, as standard input has them: hexadecimal digits, and an empty line between two cards. A line that begins with = is
// passed over.
use text::find;

// The bytes of so many digits. Past 512 bytes they start again, since the room is fixed.
#[derive(Clone, Copy)]
pub(crate) struct Memory {
    pub(crate) bytes: [u8; 512],
    pub(crate) digits: usize,
}

fn put_digit(memory: &mut Memory, digit: u8) {
    let n = memory.digits % 1024;
    memory.bytes[n / 2] = memory.bytes[n / 2] % 16 * 16 + digit % 16;
    memory.digits = n + 1;
}

// The memory of a card, counted from 0.
pub(crate) fn card(input: &[u8], k: usize) -> Memory {
    let mut memory = Memory {
        bytes: [0; 512],
        digits: 0,
    };
    let mut card: usize = 0;
    for line in input.split(|&c| c == b'\n') {
        match line {
            [] => card = card % 1000 + 1,
            [b'=', ..] => {}
            _ => {
                if card == k {
                    put_digits(&mut memory, line);
                }
            }
        }
    }
    memory
}

fn put_digits(memory: &mut Memory, line: &[u8]) {
    for &c in line {
        if let Some(digit) = find::hex_value(c) {
            put_digit(memory, digit);
        }
    }
}
