// Lines of the text that can-utils' `candump` prints: the interface of a line, and its frame in the log's form, `ID#DATA`.
// Into a log (`-L`) it prints `(TIME) INTERFACE ID#DATA`, perhaps with R or T behind it. On a screen it prints
// `INTERFACE ID [LENGTH] XX XX ..`, perhaps with a time before it (`-t`), marks before the identifier (`-x`), and letters behind the data (`-a`).
#![tactic(auto)]

ghost use Rattle.std.specs.Prelude.{◌≡◌, ◌≤◌, length};
ghost use Rattle.std.proofs.lemmas.List.Edits.{sets};
ghost use Rattle.dump.specs.Dump.{opens, closes, behind_time, time_in, interface_in, is_log, ended, logged_in, fields_in, count_in, pair_of, pairs_in, mark_of, closed_at, data_of, text_of, is_id, shown_in, is_drop};

use lines::Run;
use stamps::Stamp;

// A frame in the log's form.
#[derive(Clone, Copy)]
pub struct Text {}

impl Text {
    // The longest that is made of a line on a screen: identifier, #, 8 bytes, and the mark of a length over 8.
    pub const LONGEST: usize = 27;

    pub const ID_DIGITS: usize = 8;

    pub const DATA: u8 = 8;
}

// The interface of a line.
#[tactic(auto, unfolding(crate::specs::Dump::interface_in))]
pub fn interface(line: &[u8]) -> &[u8]
    ensures { result.now ≡ interface_in line.now }
{
    lines::word(behind_time(line), 0)
}

// The time of a line.
#[tactic(auto, unfolding(crate::specs::Dump::time_in))]
pub fn time(line: &[u8]) -> Option<Stamp>
    ensures { result ≡ time_in line.now }
{
    let first = lines::word(line, 0);
    if !opens(first) {
        return None;
    }
    if closes(first) {
        return Stamp::seconds(first);
    }
    let second = lines::word(line, 1);
    if closes(second) {
        return Stamp::dated(first, second);
    }
    None
}

// Whether a line says only that frames were missed.
#[tactic(auto, unfolding(crate::specs::Dump::is_drop))]
pub fn is_drop(line: &[u8]) -> bool
    ensures { result ≡ is_drop line.now }
{
    lines::same(lines::word(line, 0), b"DROPCOUNT:")
}

// Whether a line has the log's form: its third word holds a #.
#[tactic(auto, unfolding(crate::specs::Dump::is_log, crate::specs::Dump::hash_at))]
pub fn is_log(line: &[u8]) -> bool
    ensures { result ≡ is_log line.now }
{
    let time = lines::word(line, 0);
    let frame = lines::word(line, 2);
    opens(time) && closes(time) && Run::Until(b'#').length(frame) < frame.len()
}

// The frame of a line in the log's form; nothing where something else stands behind it than R or T.
#[tactic(auto, unfolding(crate::specs::Dump::logged_in))]
pub fn logged(line: &[u8]) -> &[u8]
    ensures { result.now ≡ logged_in line.now }
{
    if ends(line) {
        lines::word(line, 2)
    } else {
        &[]
    }
}

// Puts the frame of a line on a screen, in the log's form, to the front of `room`, and answers its size: at most
// `Text::LONGEST`, and 0 where the line has none. What lies past the room's end is not stored.
#[tactic(auto, using(crate::proofs::Texts::id_most, crate::proofs::Texts::text_most), unfolding(crate::specs::Dump::shown_in, crate::specs::Dump::frame_of))]
pub fn shown(line: &[u8], room: &mut [u8]) -> usize
    ensures value { result ≡ length (shown_in line.now) }
    ensures room_after { room.new ≡ sets room.old 0 (shown_in line.now) }
{
    let f = fields(behind_time(line));
    let id = lines::word(f, 0);
    if !is_id(id) {
        return 0;
    }
    let at = id.len();
    wire::put_all(room, 0, id);
    wire::put(room, at, b'#');
    let n = Data::of(f).put(f, room, at + 1);
    at + 1 + n
}

// Whether a word opens a bracket, and whether it closes one.
#[tactic(auto, unfolding(crate::specs::Dump::opens))]
fn opens(word: &[u8]) -> bool
    ensures { result ≡ opens word.now }
{
    matches!(word, [b'(', ..])
}

#[tactic(auto, unfolding(crate::specs::Dump::closes))]
fn closes(word: &[u8]) -> bool
    ensures { result ≡ closes word.now }
{
    matches!(word, [.., b')'])
}

// What stands behind the time, of one word or two, where there is one.
#[tactic(auto, unfolding(crate::specs::Dump::behind_time))]
fn behind_time(line: &[u8]) -> &[u8]
    ensures { result.now ≡ behind_time line.now }
{
    let time = lines::word(line, 0);
    if !opens(time) {
        return lines::tail(line, 0);
    }
    if closes(time) {
        return lines::tail(line, 1);
    }
    if closes(lines::word(line, 1)) {
        return lines::tail(line, 2);
    }
    &[]
}

// Whether nothing stands behind the third word, or R, or T.
#[tactic(auto, unfolding(crate::specs::Dump::ended))]
fn ends(line: &[u8]) -> bool
    ensures { result ≡ ended line.now }
{
    let mark = lines::word(line, 3);
    lines::tail(line, 4).is_empty()
        && (mark.is_empty() || lines::same(mark, b"R") || lines::same(mark, b"T"))
}

// The identifier and what stands behind it.
#[tactic(auto, unfolding(crate::specs::Dump::fields_in))]
fn fields(body: &[u8]) -> &[u8]
    ensures { result.now ≡ fields_in body.now }
{
    let way = lines::word(body, 1);
    if lines::same(way, b"RX") || lines::same(way, b"TX") {
        lines::tail(body, 4)
    } else {
        lines::tail(body, 1)
    }
}

// Whether a word could be an identifier.
#[tactic(auto, unfolding(crate::specs::Dump::is_id, crate::specs::Dump::hash_at))]
fn is_id(word: &[u8]) -> bool
    ensures { result ≡ is_id word.now }
{
    word.len() <= Text::ID_DIGITS && Run::Until(b'#').length(word) == word.len()
}

// The length of a frame, 0 to 15.
#[tactic(auto, using(lines::proofs::Numbers::number_most), unfolding(crate::specs::Dump::count_in, crate::specs::Dump::between))]
fn count(word: &[u8]) -> Option<u8>
    ensures { result ≡ count_in word.now }
{
    match word {
        [b'[', _, b']'] => Some(lines::number(&word[1..2], 10, 8)? as u8),
        [b'{', _, b'}'] => Some(lines::number(&word[1..2], 16, 15)? as u8),
        _ => None,
    }
}

// Whether the data end before a word: nothing stands there, or letters in quotes, or ERRORFRAME.
#[tactic(auto, unfolding(crate::specs::Dump::closed_at))]
fn closed(f: &[u8], at: u8) -> bool
    ensures { result ≡ closed_at at f.now }
{
    let word = lines::word(f, at);
    matches!(word, [] | [b'\'', ..]) || lines::same(word, b"ERRORFRAME")
}

// What the data of a frame on a screen are: CAN FD's; a remote frame's, which has none; so many bytes, where a length over 8 stands for 8; or
// nothing that can be read.
#[derive(Clone, Copy)]
pub enum Data {
    Flexible,
    Remote,
    Bytes(u8),
    Unread,
}

impl Data {
    #[tactic(auto, unfolding(crate::specs::Dump::data_of, crate::specs::Dump::data_by, crate::specs::Dump::between))]
    fn of(f: &[u8]) -> Data
        ensures { result ≡ data_of f.now }
    {
        let form = lines::word(f, 1);
        if matches!(form, [b'[', _, _, b']']) {
            return Data::Flexible;
        }
        let Some(size) = count(form) else {
            return Data::Unread;
        };
        if lines::same(lines::word(f, 2), b"remote") {
            return Data::Remote;
        }
        if closed(f, 2 + size.min(Text::DATA)) {
            Data::Bytes(size)
        } else {
            Data::Unread
        }
    }

    // Puts the data in the log's form at a place, and answers how long they are.
    #[tactic(auto, using(crate::proofs::Texts::pairs_length, crate::proofs::Texts::mark_most), unfolding(crate::specs::Dump::text_of))]
    fn put(self, f: &[u8], room: &mut [u8], at: usize) -> usize
        requires { at ≤ 9 }
        ensures value { result ≡ length (text_of self f.now) }
        ensures room_after { room.new ≡ sets room.old at (text_of self f.now) }
    {
        match self {
            Data::Flexible => {
                wire::put(room, at, b'#');
                1
            }
            Data::Remote => {
                wire::put(room, at, b'R');
                1
            }
            Data::Unread => {
                wire::put(room, at, b'?');
                1
            }
            Data::Bytes(n) => {
                let k = n.min(Text::DATA);
                put_pairs(f, room, at, k);
                let size = 2 * usize::from(k);
                size + put_mark(f, room, at + size, n)
            }
        }
    }
}

// Puts the letters of k bytes at a place.
#[tactic(auto, unfolding(crate::specs::Dump::pairs_in))]
fn put_pairs(f: &[u8], room: &mut [u8], at: usize, k: u8)
    requires { (at ≤ 9) × (k ≤ 8) }
    ensures { room.new ≡ sets room.old at (pairs_in f.now 2 k) }
{
    for i in 0..k {
        put_pair(lines::word(f, 2 + i), room, at + 2 * usize::from(i));
    }
}

#[tactic(auto, unfolding(crate::specs::Dump::pair_of))]
fn put_pair(word: &[u8], room: &mut [u8], at: usize)
    ensures { room.new ≡ sets room.old at (pair_of word.now) }
{
    let pair = if word.len() == 2 { word } else { b"??" };
    wire::put_all(room, at, pair);
}

// Puts the mark of a length over 8, and answers how long it is.
#[tactic(auto, unfolding(crate::specs::Dump::mark_of))]
fn put_mark(f: &[u8], room: &mut [u8], at: usize, n: u8) -> usize
    requires { at ≤ 25 }
    ensures value { result ≡ length (mark_of n f.now) }
    ensures room_after { room.new ≡ sets room.old at (mark_of n f.now) }
{
    if n <= Text::DATA {
        return 0;
    }
    let digit = wire::byte(lines::word(f, 1), 1);
    wire::put(room, at, b'_');
    wire::put(room, at + 1, digit);
    2
}
