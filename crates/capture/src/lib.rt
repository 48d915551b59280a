// Captured frames: what a line of the text that `candump` prints holds, and the log item of its frame.
#![tactic(auto)]

ghost use Rattle.std.specs.Prelude.{◌≡◌, not, ◌&&◌, eqb, length, replicate};
ghost use Rattle.joining.specs.Frame.{frame_refusal};
ghost use Rattle.std.proofs.lemmas.List.Edits.{sets};
ghost use Rattle.items.specs.Run.{run_bytes};
ghost use Rattle.capture.specs.Capture.{hex_in, bytes_in, raw_text, is_marked, data_text, id_in, sort_of_frame, is_elsewhere, placed, is_foreign, frame_for, sort_for, sort_in, frame_item, item_of, items_of_line, is_frame, start_after, since_in};
ghost use Rattle.capture.specs.Inner.{items_for};

use dump::Text;
use items::Item;
use lines::Run;
use stamps::{Since, Stamp};

// What a line holds: a frame that a log can hold, perhaps with a mark for a length over 8; one that isn't asked for; a frame of another kind, or
// past the last time that a log can hold; how many frames were missed; nothing; or nothing that can be read.
#[derive(Clone, Copy)]
pub enum Sort {
    Frame,
    Marked,
    Foreign,
    Elsewhere,
    Short,
    Remote,
    Error,
    Fd,
    Length,
    Beyond,
    Dropped,
    Nothing,
    Broken,
}

impl Sort {
    // Digits of an 11-bit identifier and of a longer one, and the largest number of each. Bit 29 marks an error frame.
    pub const SHORT_DIGITS: usize = 3;

    pub const LONG_DIGITS: usize = 8;

    pub const SHORT_LARGEST: u32 = 2047;

    pub const LONG_LARGEST: u32 = 1073741823;

    pub const ERROR_BIT: u32 = 536870912;

    // Digits of 8 data bytes.
    pub const DATA_DIGITS: usize = 16;

    // The same with a mark.
    pub const MARKED_DIGITS: usize = 18;

    // What a frame in the log's form is.
    #[tactic(auto, unfolding(crate::specs::Capture::sort_of_frame, crate::specs::Capture::sort_by, crate::specs::Capture::id_size))]
    fn of_frame(word: &[u8]) -> Sort
        ensures { result ≡ sort_of_frame word.now }
    {
        let Some(id) = identifier(word) else {
            return Sort::Broken;
        };
        let d = digits(word);
        let first = wire::byte(d, 0);
        if first == b'#' {
            Sort::Fd
        } else if first == b'R' {
            Sort::Remote
        } else if Sort::DATA_DIGITS < d.len() || !hexadecimal(d) {
            Sort::Broken
        } else if Sort::ERROR_BIT <= id {
            Sort::Error
        } else if Run::Until(b'#').length(word) == Sort::SHORT_DIGITS {
            Sort::Short
        } else if d.len() == Sort::DATA_DIGITS {
            Sort::Frame
        } else {
            Sort::Length
        }
    }

    // The sort of a frame that is perhaps on another interface than the one that is asked for.
    #[tactic(auto, unfolding(crate::specs::Capture::placed))]
    fn placed(self, elsewhere: bool) -> Sort
        ensures { result ≡ placed elsewhere self }
    {
        match self {
            Sort::Broken => Sort::Broken,
            _ if elsewhere => Sort::Elsewhere,
            _ => self,
        }
    }

    // Whether a line of this sort is a frame, written or not.
    fn is_frame(self) -> bool
        ensures { result ≡ is_frame self }
    {
        !matches!(self, Sort::Dropped | Sort::Nothing | Sort::Broken)
    }
}

// The time in the log of a frame that came at `stamp`, where times count from `start`, or from this frame if none before it had a time.
#[tactic(auto, unfolding(crate::specs::Capture::since_in))]
pub fn since(start: Option<Stamp>, stamp: Option<Stamp>) -> Since
    ensures { result ≡ since_in start stamp }
{
    Stamp::since(Stamp::earliest(start, stamp), stamp)
}

// Where times count from behind a line of this time and sort: the first frame that has a time, written or not.
#[tactic(auto, unfolding(crate::specs::Capture::start_after))]
pub fn started(start: Option<Stamp>, stamp: Option<Stamp>, sort: Sort) -> Option<Stamp>
    ensures { result ≡ start_after start stamp sort }
{
    if sort.is_frame() {
        Stamp::earliest(start, stamp)
    } else {
        start
    }
}

// Writes the item of a line's frame to the front of `room`, where the line holds one that is asked for: `Item::TIMED_BYTES` if it has a time in
// the log, and otherwise `Item::FRAME_BYTES`. Asked for are all frames, or with `ours` those that a report can be joined from; and of all
// interfaces, or of the one that `name` names. What lies past the room's end is not stored.
#[tactic(auto, using(crate::proofs::Frames::front_shown), unfolding(crate::specs::Capture::sort_in, crate::specs::Capture::items_of_line, crate::specs::Inner::items_for, dump::specs::Dump::frame_in, items::specs::Run::run_bytes))]
pub fn write(line: &[u8], ours: bool, name: &[u8], time: Since, room: &mut [u8]) -> Sort
    ensures value { result ≡ sort_in ours name.now time line.now }
    ensures room_after { room.new ≡ sets room.old 0 (run_bytes (items_of_line ours name.now time line.now)) }
{
    if lines::word(line, 0).is_empty() {
        return Sort::Nothing;
    }
    if dump::is_drop(line) {
        return Sort::Dropped;
    }
    let elsewhere = is_elsewhere(name, line);
    if dump::is_log(line) {
        return write_frame(dump::logged(line), ours, elsewhere, time, room);
    }
    let mut text = [0u8; Text::LONGEST];
    let size = dump::shown(line, &mut text);
    write_frame(wire::front(&text, size), ours, elsewhere, time, room)
}

// Whether a line is of another interface than the one that is named.
#[tactic(auto, unfolding(crate::specs::Capture::is_elsewhere))]
fn is_elsewhere(name: &[u8], line: &[u8]) -> bool
    ensures { result ≡ is_elsewhere name.now line.now }
{
    !name.is_empty() && !lines::same(name, dump::interface(line))
}

// The same for a frame in the log's form.
#[tactic(auto, using(crate::proofs::Frames::sixteen, crate::proofs::Frames::other_sort, crate::proofs::Frames::other_items), unfolding(crate::specs::Inner::items_for, crate::specs::Capture::sort_for, crate::specs::Capture::wanted, items::specs::Run::run_bytes))]
fn write_frame(word: &[u8], ours: bool, elsewhere: bool, time: Since, room: &mut [u8]) -> Sort
    ensures value { result ≡ sort_for ours elsewhere time word.now }
    ensures room_after { room.new ≡ sets room.old 0 (run_bytes (items_for ours elsewhere time word.now)) }
{
    let sort = Sort::of_frame(word).placed(elsewhere);
    match sort {
        Sort::Frame => put_frame(word, ours, time, room),
        _ => sort,
    }
}

// The same for one with 8 data bytes.
#[tactic(auto, using(crate::proofs::Texts::eight_stored), unfolding(crate::specs::Capture::frame_for, crate::specs::Capture::is_foreign, items::specs::Run::run_bytes))]
fn put_frame(word: &[u8], ours: bool, time: Since, room: &mut [u8]) -> Sort
    requires { length (data_text word.now) ≡ 16 }
    ensures value { result ≡ frame_for ours time word.now }
    ensures room_after { room.new ≡ sets room.old 0 (run_bytes (item_of time (frame_for ours time word.now) word.now)) }
{
    let id = identifier(word).unwrap_or(0);
    let bytes = eight_bytes(digits(word));
    if foreign(ours, id, &bytes) {
        return Sort::Foreign;
    }
    if let Since::Beyond = time {
        return Sort::Beyond;
    }
    frame_item(time, id).put(&bytes, room, 0);
    if marked(raw(word)) {
        Sort::Marked
    } else {
        Sort::Frame
    }
}

// A frame's item, with its time if there is one.
fn frame_item(time: Since, id: u32) -> Item
    ensures { result ≡ frame_item time id }
{
    match time {
        Since::At(ms) => Item::Timed(ms, id),
        Since::Unknown | Since::Beyond => Item::Frame(id),
    }
}

// Whether a frame isn't asked for, since no report can be joined from it.
fn foreign(ours: bool, id: u32, bytes: &[u8]) -> bool
    ensures { result ≡ (ours && not (eqb (frame_refusal id bytes.now) 0)) }
{
    ours && joining::frame_refusal(id, bytes).is_err()
}

// The identifier before the #.
#[tactic(auto, unfolding(crate::specs::Capture::id_in, crate::specs::Capture::id_size))]
fn identifier(word: &[u8]) -> Option<u32>
    ensures { result ≡ id_in word.now }
{
    let size = Run::Until(b'#').length(word);
    if word.len() <= size {
        return None;
    }
    match size {
        Sort::SHORT_DIGITS => lines::number(&word[..size], 16, Sort::SHORT_LARGEST),
        Sort::LONG_DIGITS => lines::number(&word[..size], 16, Sort::LONG_LARGEST),
        _ => None,
    }
}

// What stands behind the first #.
#[tactic(auto, using(lines::proofs::Words::run_within), unfolding(crate::specs::Capture::raw_text, crate::specs::Capture::id_size))]
fn raw(word: &[u8]) -> &[u8]
    ensures { result.now ≡ raw_text word.now }
{
    let size = Run::Until(b'#').length(word);
    match &word[size..] {
        [_, rest @ ..] => rest,
        [] => &[],
    }
}

// Whether behind 8 bytes stands the mark of a length over 8.
#[tactic(auto, unfolding(crate::specs::Capture::is_marked))]
fn marked(text: &[u8]) -> bool
    ensures { result ≡ is_marked text.now }
{
    text.len() == Sort::MARKED_DIGITS
        && wire::byte(text, Sort::DATA_DIGITS) == b'_'
        && 8 < lines::number(&text[17..], 16, 15).unwrap_or(0)
}

// The data without the mark.
#[tactic(auto, unfolding(crate::specs::Capture::data_text))]
fn digits(word: &[u8]) -> &[u8]
    ensures { result.now ≡ data_text word.now }
{
    let text = raw(word);
    if marked(text) {
        wire::front(text, Sort::DATA_DIGITS)
    } else {
        text
    }
}

// Whether a text is bytes of two hexadecimal digits each.
#[tactic(auto, unfolding(crate::specs::Capture::hex_in))]
fn hexadecimal(s: &[u8]) -> bool
    ensures { result ≡ hex_in s.now }
{
    if s.len() % 2 != 0 {
        return false;
    }
    for k in 0..s.len() / 2 {
        if lines::number(&s[2 * k..2 * k + 2], 16, 255).is_none() {
            return false;
        }
    }
    true
}

// The first eight bytes that pairs of digits stand for.
#[tactic(auto, using(crate::proofs::Texts::read_most), unfolding(crate::specs::Capture::bytes_in))]
fn eight_bytes(s: &[u8]) -> [u8; 8]
    ensures { result ≡ sets (replicate 8 0) 0 (bytes_in s.now) }
{
    let mut bytes = [0u8; 8];
    for k in 0..s.len() / 2 {
        let byte = lines::number(&s[2 * k..2 * k + 2], 16, 255).unwrap_or(0);
        wire::put(&mut bytes, k, byte as u8);
    }
    bytes
}
