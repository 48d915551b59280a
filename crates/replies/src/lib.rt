// The desk's answers, as bytes in a buffer that a caller lends. Every function stores its text from any place on and answers the place
// behind it; what lies past the buffer's end is not stored.
#![tactic(auto)]

use values::Edition;

// Stores a text.
pub fn put(buf: &mut [u8], at: usize, text: &[u8]) -> usize {
    wire::put_all(buf, at, text);
    at.saturating_add(text.len())
}

// Stores a text and a number behind a space.
pub fn put_counted(buf: &mut [u8], at: usize, text: &[u8], n: u64) -> usize {
    let end = put(buf, at, text);
    put_number(buf, end, n)
}

// Stores a space and a number.
pub fn put_number(buf: &mut [u8], at: usize, n: u64) -> usize {
    put_mark(buf, at, b" ", n)
}

// Stores a mark and a number.
pub fn put_mark(buf: &mut [u8], at: usize, mark: &[u8], n: u64) -> usize {
    let end = put(buf, at, mark);
    text::put_decimal(buf, end, n)
}

// Stores a space, a number, a colon and a score.
pub fn put_scored(buf: &mut [u8], at: usize, n: u64, score: i32) -> usize {
    let number = put_number(buf, at, n);
    let end = put(buf, number, b":");
    text::put_signed(buf, end, score)
}

// Stores a mark and the heat, where there is one.
pub fn put_heat(buf: &mut [u8], at: usize, mark: &[u8], edition: Edition) -> usize {
    match edition {
        Edition::First => at,
        Edition::Second(heat) => put_mark(buf, at, mark, u64::from(heat)),
    }
}

// Stores bytes in capital digits, two a byte.
pub fn put_bytes(buf: &mut [u8], at: usize, bytes: &[u8]) -> usize {
    let mut end = at;
    for b in bytes {
        end = put(buf, end, &[digit(b / 16), digit(b % 16)]);
    }
    end
}

// Stores an identifier in 8 digits.
pub fn put_identifier(buf: &mut [u8], at: usize, id: u32) -> usize {
    put_bytes(buf, at, &id.to_be_bytes())
}

// The capital digit of a number below 16.
fn digit(n: u8) -> u8 {
    b"0123456789ABCDEF"[usize::from(n % 16)]
}

// The answer of a call that refuses.
pub fn refused(buf: &mut [u8], code: u8) -> usize {
    put_counted(buf, 0, b"refused", u64::from(code))
}
