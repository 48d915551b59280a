// The words of a line that are left, read one after another: each as a number of its range, or as bytes.
#![tactic(auto)]

// What is left of a line.
#[derive(Clone, Copy)]
pub struct Words<'a> {
    rest: &'a [u8],
}

// Bytes in hexadecimal digits, two a byte.
#[derive(Clone, Copy)]
pub struct Bytes<'a> {
    digits: &'a [u8],
}

// A word is missing, stands where none may, or is none that its place can hold.
#[derive(Clone, Copy)]
pub struct Wrong;

impl<'a> Words<'a> {
    // All the words of a line.
    pub fn of(line: &'a [u8]) -> Words<'a> {
        Words { rest: line }
    }

    // The next word.
    pub fn next(&mut self) -> Option<&'a [u8]> {
        let word = lines::word(self.rest, 0);
        self.rest = lines::tail(self.rest, 1);
        if word.is_empty() { None } else { Some(word) }
    }

    // Nothing is left.
    pub fn ended(mut self) -> Result<(), Wrong> {
        match self.next() {
            None => Ok(()),
            Some(_) => Err(Wrong),
        }
    }

    fn needed(&mut self) -> Result<&'a [u8], Wrong> {
        self.next().ok_or(Wrong)
    }

    // A number from 0 to `most`.
    pub fn number<T: TryFrom<u32> + Copy>(&mut self, most: T) -> Result<T, Wrong>
    where
        u32: From<T>,
        T::Error: Drop,
    {
        read(self.needed()?, 10, most)
    }

    // The number behind a word that may be missing; no other word may stand in its place.
    pub fn number_behind<T: TryFrom<u32> + Copy>(
        &mut self,
        name: &[u8],
        most: T,
    ) -> Result<Option<T>, Wrong>
    where
        u32: From<T>,
        T::Error: Drop,
    {
        match self.next() {
            None => Ok(None),
            Some(word) if word == name => Ok(Some(self.number(most)?)),
            Some(_) => Err(Wrong),
        }
    }

    // A number of the type's range, with a minus before one below zero.
    pub fn signed<T: TryFrom<i64>>(&mut self) -> Result<T, Wrong>
    where
        T::Error: Drop,
    {
        let n = match self.needed()? {
            [b'-', digits @ ..] => -i64::from(read(digits, 10, u32::MAX)?),
            digits => i64::from(read(digits, 10, u32::MAX)?),
        };
        T::try_from(n).map_err(|_| Wrong)
    }

    // A number of 1 to 8 hexadecimal digits.
    pub fn identifier(&mut self) -> Result<u32, Wrong> {
        let word = self.needed()?;
        if word.len() <= 8 {
            read(word, 16, u32::MAX)
        } else {
            Err(Wrong)
        }
    }

    // Bytes in hexadecimal digits. Where the next word is none, it stays, and there are no bytes.
    pub fn bytes(&mut self) -> Bytes<'a> {
        let mut behind = *self;
        match behind.next() {
            Some(digits) if is_bytes(digits) => {
                *self = behind;
                Bytes { digits }
            }
            _ => Bytes { digits: &[] },
        }
    }
}

impl Bytes<'_> {
    // Stores them at the front of `room`, as far as it goes, and answers how many they are.
    pub fn put(self, room: &mut [u8]) -> usize {
        for (byte, pair) in room.iter_mut().zip(self.digits.chunks_exact(2)) {
            *byte = read(pair, 16, u8::MAX).unwrap_or(0);
        }
        self.digits.len() / 2
    }
}

// The number that the digits of a word stand for, of at most `most`.
fn read<T: TryFrom<u32> + Copy>(word: &[u8], base: u8, most: T) -> Result<T, Wrong>
where
    u32: From<T>,
    T::Error: Drop,
{
    let n = lines::number(word, base, u32::from(most)).ok_or(Wrong)?;
    T::try_from(n).map_err(|_| Wrong)
}

// Whether a word is two hexadecimal digits for each byte.
fn is_bytes(word: &[u8]) -> bool {
    word.len() % 2 == 0 && word.iter().all(u8::is_ascii_hexdigit)
}
