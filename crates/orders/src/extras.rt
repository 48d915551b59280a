// The words in brackets behind a line's numbers: in any order, each once. What a line doesn't say is None.
use ranges::{Bytes, Words, Wrong};
use ranking::Range;

// What is said of a question's rule.
#[derive(Clone, Copy, Default)]
pub struct RuleExtras {
    // The heat's weight.
    pub heat: Option<i16>,
    pub loss: Option<Range>,
    pub shake: Option<Range>,
    pub ties: Option<u8>,
}

// What is said of a report that the bench sender writes.
#[derive(Clone, Copy, Default)]
pub struct SendExtras<'a> {
    pub heat: Option<u16>,
    pub note: Option<Bytes<'a>>,
    // The room lent to the writer, in bytes.
    pub room: Option<u32>,
}

impl RuleExtras {
    const WORDS: usize = 4;

    pub fn read(words: &mut Words) -> Result<RuleExtras, Wrong> {
        let mut said = RuleExtras::default();
        for _ in 0..RuleExtras::WORDS {
            match words.next() {
                None => break,
                Some(b"heat") if said.heat.is_none() => said.heat = Some(words.signed()?),
                Some(b"loss") if said.loss.is_none() => said.loss = Some(range(words)?),
                Some(b"shake") if said.shake.is_none() => said.shake = Some(range(words)?),
                Some(b"rule") if said.ties.is_none() => said.ties = Some(words.number(u8::MAX)?),
                Some(_) => return Err(Wrong),
            }
        }
        Ok(said)
    }
}

impl<'a> SendExtras<'a> {
    const WORDS: usize = 3;

    pub fn read(words: &mut Words<'a>) -> Result<SendExtras<'a>, Wrong> {
        let mut said = SendExtras::default();
        for _ in 0..SendExtras::WORDS {
            match words.next() {
                None => break,
                Some(b"heat") if said.heat.is_none() => said.heat = Some(words.number(u16::MAX)?),
                Some(b"note") if said.note.is_none() => said.note = Some(words.bytes()),
                Some(b"room") if said.room.is_none() => said.room = Some(words.number(u32::MAX)?),
                Some(_) => return Err(Wrong),
            }
        }
        Ok(said)
    }
}

fn range(words: &mut Words) -> Result<Range, Wrong> {
    Ok(Range {
        low: words.number(u16::MAX)?,
        high: words.number(u16::MAX)?,
    })
}
