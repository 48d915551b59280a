// A log that comes in pieces of any size: what has come of the next item waits, and whole items are done as they come.
#![tactic(auto)]

ghost use Rattle.std.specs.Prelude.{◌≡◌, ◌&&◌, ltb, eqb, get_or, drop};
ghost use Rattle.std.proofs.lemmas.List.Edits.{sets};
ghost use Rattle.text.specs.Text.{behind};
ghost use Rattle.journal.specs.Log.{Stores, item_done};
ghost use Rattle.coming.specs.Coming.{comes, has_room};
ghost use Rattle.pieces.specs.Machine.{nothing, with_byte, is_whole, value_end, value_in, Feeds, end_line};

use items::Item;
use journal::{Done, Log};
use wire::Field;

// What has come of an item that is not whole yet: its first 19 bytes, and how many there were. No longer item is known.
#[derive(Clone, Copy)]
pub struct Waiting {
    pub bytes: [u8; Waiting::KEPT],
    pub have: u32,
}

// The log and what waits, behind the bytes that were taken; and how many bytes of text were written.
#[derive(Clone, Copy)]
pub struct Fed {
    pub log: Log,
    pub waiting: Waiting,
    pub taken: usize,
    pub written: usize,
}

impl Waiting {
    // The bytes of the longest item.
    pub const LONGEST: u32 = 65538;

    // What is kept of an item: the head, and the longest value of a known one.
    pub const KEPT: usize = 19;

    // Nothing waits.
    pub fn nothing() -> Waiting
        ensures { result ≡ nothing }
    {
        let bytes = [0u8; Waiting::KEPT];
        Waiting { bytes, have: 0 }
    }

    // One byte more.
    #[tactic(auto, unfolding(crate::specs::Machine::with_byte))]
    fn with_byte(self, b: u8) -> Waiting
        ensures { result ≡ with_byte self b }
    {
        let mut bytes = self.bytes;
        wire::put(&mut bytes, self.have as usize, b);
        Waiting {
            bytes,
            have: self.have.saturating_add(1).min(Waiting::LONGEST),
        }
    }

    // Whether the item has come whole.
    fn whole(self) -> bool
        ensures { result ≡ is_whole self }
    {
        let bytes = self.bytes;
        3 + (wire::read16(&bytes, 1) as u32) <= self.have
    }

    // Does the item that has come. One that is too long is done with no value: its length is wrong either way.
    fn item(self, log: Log, out: &mut [u8], at: usize) -> Done
        ensures { Stores (item_done log (get_or self.bytes 0 0) (value_in self)) out.old at result.log result.at out.new }
    {
        let bytes = self.bytes;
        let tag = wire::byte(&bytes, 0);
        let end = value_end(wire::read16(&bytes, 1));
        log.item(tag, behind_head(wire::front(&bytes, end)), out, at)
    }

    // Takes a piece of a log behind what waits, as long as `out` has room for whatever the next item prints, and stores the
    // text from the start of `out`. Where nothing waits a stretch of items is done in place; every other item comes byte by byte.
    pub fn feed(self, log: Log, piece: &[u8], out: &mut [u8]) -> Fed
        ensures { Feeds log self piece.now out.old result out.new }
    {
        let mut left = log;
        let mut next = self;
        let mut at: usize = 0;
        let mut i: usize = 0;
        // Stays: a turn takes as many bytes as its items have, or one, so no range or iterator counts them.
        while goes_on(piece.len(), i, out.len(), at) {
            if starts(next.have, left.board.window.counts.size, &piece[i..]) {
                let done = stretch::take(left, &piece[i..], out, at);
                i += done.taken;
                at = done.at;
                left = done.log;
                next = Waiting::nothing();
                continue;
            }
            let come = next.with_byte(piece[i]);
            i += 1;
            if !come.whole() {
                next = come;
                continue;
            }
            let done = come.item(left, out, at);
            at = done.at;
            left = done.log;
            next = Waiting::nothing();
        }
        Fed {
            log: left,
            waiting: next,
            taken: i,
            written: at,
        }
    }

    // What is printed where the log ends: the line of an item that it ends inside.
    pub fn finish(self, log: Log, out: &mut [u8], at: usize) -> usize
        ensures value { result ≡ behind at (end_line log self) }
        ensures out_after { out.new ≡ sets out.old at (end_line log self) }
    {
        if self.have == 0 {
            return at;
        }
        text::put_r(out, at, journal::next_item(log.items), Log::CUT)
    }
}

// Where the value ends of an item with a value of that size; at its start where that is too long.
fn value_end(size: u16) -> usize
    ensures { result ≡ value_end size }
{
    let long = size as usize;
    if long <= Item::LONGEST {
        Field::HEAD + long
    } else {
        Field::HEAD
    }
}

// What stands behind a field's head.
fn behind_head(s: &[u8]) -> &[u8]
    ensures { result.now ≡ drop 3 s.now }
{
    &s[Field::HEAD.min(s.len())..]
}

// Whether a piece of that length has a byte more, and a room of that length space for what one item prints.
fn goes_on(len: usize, i: usize, room: usize, at: usize) -> bool
    ensures { result ≡ (ltb i len && has_room room at) }
{
    i < len && coming::has_room(room, at)
}

// Whether nothing waits, and the bytes start with an item that is done where the log stands.
fn starts(have: u32, rows: u16, bytes: &[u8]) -> bool
    ensures { result ≡ (eqb have 0 && comes rows bytes.now 0) }
{
    have == 0 && coming::comes(rows, bytes, 0)
}
