// A test program's cases: lines of text on standard input, of which the first word says what is tried, and the others are
// numbers. A number that isn't there is 0.
#![tactic(auto)]

// A line without its end, which the last one may lack.
pub fn without_end(line: &[u8]) -> &[u8] {
    line.strip_suffix(b"\n").unwrap_or(line)
}

pub fn byte(line: &[u8], n: u8) -> u8 {
    read(lines::word(line, n), 10, u8::MAX)
}

pub fn short(line: &[u8], n: u8) -> u16 {
    read(lines::word(line, n), 10, u16::MAX)
}

pub fn number(line: &[u8], n: u8) -> u32 {
    read(lines::word(line, n), 10, u32::MAX)
}

// A number in hexadecimal digits.
pub fn hex(line: &[u8], n: u8) -> u32 {
    read(lines::word(line, n), 16, u32::MAX)
}

// Stores the words from `from` on, each a byte in hexadecimal digits, of which those past the room are left out; how many there are.
pub fn bytes(line: &[u8], from: u8, room: &mut [u8]) -> usize {
    for n in from..u8::MAX {
        let place = usize::from(n - from);
        if lines::word(line, n).is_empty() {
            return place;
        }
        wire::put(room, place, (hex(line, n) % 256) as u8);
    }
    usize::from(u8::MAX - from)
}

// The number in a word, of at most `most`.
fn read<T: TryFrom<u32> + Default + Copy>(word: &[u8], base: u8, most: T) -> T
where
    u32: From<T>,
    T::Error: Drop,
{
    let n = lines::number(word, base, u32::from(most)).unwrap_or(0);
    T::try_from(n).unwrap_or_default()
}
