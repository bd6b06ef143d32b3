// The lines of a script: a word, whose first two letters say what is meant, and numbers behind it.
use super::words::Word;

#[derive(Clone, Copy)]
pub struct Line {
    pub word: Option<Word>,
    // The word is in the place 0, and the numbers follow.
    pub numbers: [u64; 16],
}

impl From<&[u8]> for Line {
    fn from(text: &[u8]) -> Line {
        let letters = text.get(0..2).unwrap_or(&[]);
        Line {
            word: Word::try_from(letters).ok(),
            numbers: numbers_in(text),
        }
    }
}

// The numbers behind each space, the last with all that follows.
fn numbers_in(text: &[u8]) -> [u64; 16] {
    let mut numbers = [0u64; 16];
    let places = text.splitn(16, |byte| *byte == b' ');
    for (number, place) in numbers.iter_mut().zip(places) {
        *number = place
            .iter()
            .fold(0, |number, byte| with_digit(number, *byte));
    }
    numbers
}

// The number with a digit behind it. Another byte changes nothing.
fn with_digit(number: u64, byte: u8) -> u64 {
    if !byte.is_ascii_digit() || u64::MAX / 10 < number {
        return number;
    }
    (10 * number).wrapping_add(u64::from(byte - b'0'))
}
