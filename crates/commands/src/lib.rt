// The bench sender's text: what a line stands for, and the log items that are written for it.
// A line is `window N`, `question SLOT K A B`, with a weight C for heat behind it perhaps, and last perhaps its tie rule,
// `newest` or `first`, `remove SLOT`, `show SLOT`, `report SENDER LOSS SHAKE NUMBER`, with a note behind it perhaps, or `noted`
// for a report whose note may be empty; with heat these are `heated SENDER LOSS SHAKE HEAT NUMBER` and `heated-noted`.
// `time MS` gives the frames behind it that time, in milliseconds, until `untimed` ends that. Empty lines and those that start
// with # say nothing.
#![tactic(auto)]

ghost use Rattle.std.specs.Prelude.{◌≡◌, map, ◌*◌, ◌≤◌, length, IfOk, IfSome};
ghost use Rattle.std.proofs.lemmas.List.Edits.{sets};
ghost use Rattle.items.specs.Run.{run_bytes};
ghost use Rattle.bench.specs.Bench.{frames_in};
ghost use Rattle.commands.specs.Lines.{kind_of, is_heated, is_noted, value_at, weight_at, no_more, end_at, slot_at, window_line, tie_rule_at, heat_at, ties_at, no_tie_rule, question_item, question_line, edition_at, report_line, time_line, untimed_line, command_of, words_before, note_in};
ghost use Rattle.commands.specs.Items.{frame_item, item_of_frame, items_of, answer_of, report_items, report_answer, time_after, line_outcome, line_items};
ghost use Rattle.std.specs.Option.{option_copied};
ghost use Rattle.report.specs.Payload.{given};

use bench::Bench;
use items::{Item, Setting};
use refusal::Refusal;
use report::Report;
use values::{Edition, Values};

// What the first word of a line asks for.
#[derive(Clone, Copy)]
pub enum Kind {
    Nothing,
    Window,
    Question,
    Remove,
    Show,
    Report,
    Noted,
    Time,
    Untimed,
    Heated,
    HeatedNoted,
    Unknown,
}

impl Kind {
    #[tactic(auto, unfolding(crate::specs::Lines::kind_of))]
    pub fn of(word: &[u8]) -> Kind
        ensures { result ≡ kind_of word.now }
    {
        // Stays: `match word { b"window" => .. }` was tried; it tests byte after byte, and 22 goals of its arms stayed open.
        if word.is_empty() || wire::byte(word, 0) == b'#' {
            Kind::Nothing
        } else if lines::same(word, b"window") {
            Kind::Window
        } else if lines::same(word, b"question") {
            Kind::Question
        } else if lines::same(word, b"remove") {
            Kind::Remove
        } else if lines::same(word, b"show") {
            Kind::Show
        } else if lines::same(word, b"report") {
            Kind::Report
        } else if lines::same(word, b"noted") {
            Kind::Noted
        } else if lines::same(word, b"time") {
            Kind::Time
        } else if lines::same(word, b"untimed") {
            Kind::Untimed
        } else if lines::same(word, b"heated") {
            Kind::Heated
        } else if lines::same(word, b"heated-noted") {
            Kind::HeatedNoted
        } else {
            Kind::Unknown
        }
    }

    // Whether a report of this kind has a heat, and whether it has a note also where nothing stands behind it.
    fn is_heated(self) -> bool
        ensures { result ≡ is_heated self }
    {
        matches!(self, Kind::Heated | Kind::HeatedNoted)
    }

    fn is_noted(self) -> bool
        ensures { result ≡ is_noted self }
    {
        matches!(self, Kind::Noted | Kind::HeatedNoted)
    }
}

// What is wrong with a line: the kind of line, and which word behind the first; none where the first is.
#[derive(Clone, Copy)]
pub struct Fault {
    pub kind: Kind,
    pub word: u8,
}

// A report that is to be sent, and whether a note goes with it.
#[derive(Clone, Copy)]
pub struct Sending {
    pub sender: u8,
    pub report: Report,
    pub noted: bool,
}

// What a line stands for: nothing, one item of the log, a report's frames, or the time of the frames behind it, in milliseconds; at
// first they are written without one.
#[derive(Clone, Copy)]
pub enum Command {
    Nothing,
    Item(Item),
    Report(Sending),
    Time(Option<u32>),
}

// Why a line has no items: what is wrong with it, or the bench sender's refusal.
#[derive(Clone, Copy)]
pub enum Trouble {
    Wrong(Fault),
    Refused(Refusal),
}

// What came of a line, which is how many bytes its items take, and the time for the lines behind it.
#[derive(Clone, Copy)]
pub struct Outcome {
    pub answer: Result<usize, Trouble>,
    pub time: Option<u32>,
}

// Writes the items of a line to the front of `room`, its frames at this time; a wrong line writes none. What lies past the
// room's end is not stored.
#[tactic(auto, unfolding(items::specs::Run::run_bytes))]
pub fn write(line: &[u8], time: Option<u32>, room: &mut [u8]) -> Outcome
    ensures value { result ≡ line_outcome time line.now }
    ensures room_after { room.new ≡ sets room.old 0 (run_bytes (line_items time line.now)) }
{
    match Command::of(line) {
        Ok(command) => Outcome {
            answer: command.put(time, note_in(line), room),
            time: command.time_after(time),
        },
        Err(fault) => Outcome {
            answer: Err(Trouble::Wrong(fault)),
            time,
        },
    }
}

impl Command {
    // Bytes that are enough for any line's items: an announcement and 13 packets, 19 bytes each.
    pub const LARGEST: usize = 266;

    // What a line stands for, or what is wrong with it.
    #[tactic(auto, unfolding(crate::specs::Lines::command_of, crate::specs::Lines::remove_line, crate::specs::Lines::show_line))]
    pub fn of(line: &[u8]) -> Result<Command, Fault>
        ensures { result ≡ command_of line.now }
    {
        let kind = Kind::of(lines::word(line, 0));
        match kind {
            Kind::Nothing => Ok(Command::Nothing),
            Kind::Window => window_line(line),
            Kind::Question => question_line(line),
            Kind::Remove => Ok(Command::Item(Item::Remove(slot(kind, line)?))),
            Kind::Show => Ok(Command::Item(Item::Show(slot(kind, line)?))),
            Kind::Report | Kind::Noted | Kind::Heated | Kind::HeatedNoted => {
                report_line(kind, line)
            }
            Kind::Time => time_line(line),
            Kind::Untimed => untimed_line(line),
            Kind::Unknown => Err(Fault { kind, word: 0 }),
        }
    }

    // Writes a command's items to the front of `room`, frames at this time, and answers how many bytes they take; `note` is read for a
    // report that has one.
    #[tactic(auto, unfolding(items::specs::Run::run_bytes))]
    pub fn put(self, time: Option<u32>, note: &[u8], room: &mut [u8]) -> Result<usize, Trouble>
        ensures value { result ≡ answer_of time self note.now }
        ensures room_after { room.new ≡ sets room.old 0 (run_bytes (items_of time self note.now)) }
    {
        match self {
            Command::Nothing | Command::Time(_) => Ok(0),
            Command::Item(i) => Ok(i.put(wire::front(note, 0), room, 0)),
            Command::Report(s) => put_report(room, time, s, note),
        }
    }

    // The time of the frames behind a command, by the time before it.
    pub fn time_after(self, time: Option<u32>) -> Option<u32>
        ensures { result ≡ time_after time self }
    {
        match self {
            Command::Time(t) => t,
            _ => time,
        }
    }
}

// ---- reading

// The decimal number that is word n of a line of this kind, if it is at most `most`.
#[tactic(auto, using(lines::proofs::Numbers::number_most), unfolding(crate::specs::Lines::value_at))]
fn value(kind: Kind, line: &[u8], n: u8, most: u32) -> Result<u32, Fault>
    ensures value { result ≡ value_at kind n most line.now }
    ensures within { IfOk result (λ v. v ≤ most) }
{
    lines::number(lines::word(line, n), 10, most).ok_or(Fault { kind, word: n })
}

// The weight that is word n.
#[tactic(auto, unfolding(crate::specs::Lines::weight_at))]
fn weight(kind: Kind, line: &[u8], n: u8) -> Result<i16, Fault>
    ensures { result ≡ weight_at kind n line.now }
{
    lines::short(lines::word(line, n)).ok_or(Fault { kind, word: n })
}

// Whether nothing stands behind the first n words.
#[tactic(auto, unfolding(crate::specs::Lines::no_more))]
fn no_more(line: &[u8], n: u8) -> bool
    ensures { result ≡ no_more n line.now }
{
    lines::tail(line, n).is_empty()
}

// Nothing stands behind the first n words, or the word there is wrong.
#[tactic(auto, unfolding(crate::specs::Lines::end_at))]
fn end(kind: Kind, line: &[u8], n: u8) -> Result<(), Fault>
    ensures { result ≡ end_at kind n line.now }
{
    if no_more(line, n) {
        Ok(())
    } else {
        Err(Fault { kind, word: n })
    }
}

// How many words a report's note stands behind, by the first of them.
#[tactic(auto, unfolding(crate::specs::Lines::words_before))]
fn words_before(word: &[u8]) -> u8
    ensures { result ≡ words_before word.now }
{
    if lines::same(word, b"heated") || lines::same(word, b"heated-noted") {
        6
    } else {
        5
    }
}

// A report's note.
fn note_in(line: &[u8]) -> &[u8]
    ensures { result.now ≡ note_in line.now }
{
    lines::tail(line, words_before(lines::word(line, 0)))
}

#[tactic(auto, unfolding(crate::specs::Lines::window_line))]
fn window_line(line: &[u8]) -> Result<Command, Fault>
    ensures { result ≡ window_line line.now }
{
    let n = value(Kind::Window, line, 1, 65535)?;
    end(Kind::Window, line, 2)?;
    Ok(Command::Item(Item::Window(n as u16)))
}

// The tie rule that is word n.
#[tactic(auto, unfolding(crate::specs::Lines::tie_rule_at, crate::specs::Lines::tie_rule_in))]
fn rule(line: &[u8], n: u8) -> Option<u8>
    ensures { result ≡ tie_rule_at n line.now }
{
    let word = lines::word(line, n);
    if lines::same(word, b"newest") {
        Some(0)
    } else if lines::same(word, b"first") {
        Some(1)
    } else {
        None
    }
}

// The weight for heat, which is 0 where it isn't given: where nothing is behind the first five words, or a tie rule, `early`.
#[tactic(auto, unfolding(crate::specs::Lines::heat_at))]
fn heat_weight(line: &[u8], bare: bool, early: Option<u8>) -> Result<i16, Fault>
    requires { (bare ≡ no_more 5 line.now) × (early ≡ tie_rule_at 5 line.now) }
    ensures { result ≡ heat_at line.now }
{
    if bare || early.is_some() {
        Ok(0)
    } else {
        weight(Kind::Question, line, 5)
    }
}

// The tie rule of a question, which is newest where none is given: `early`, which is word 5, with the line's end behind it, or else word 6.
#[tactic(auto, unfolding(crate::specs::Lines::ties_at))]
fn tie_rule(line: &[u8], early: Option<u8>, end: bool) -> Option<u8>
    requires { (early ≡ tie_rule_at 5 line.now) × (end ≡ no_more 6 line.now) }
    ensures { result ≡ ties_at line.now }
{
    match early {
        Some(_) if end => early,
        Some(_) => None,
        None if end => Some(0),
        None => rule(line, 6),
    }
}

// The item that sets a question: by what is given of a weight for heat and a tie rule.
#[tactic(auto, unfolding(crate::specs::Lines::question_item, crate::specs::Lines::no_tie_rule))]
fn question_item(line: &[u8], bare: bool, early: Option<u8>, end: bool, s: Setting) -> Item
    requires { (bare ≡ no_more 5 line.now) × (early ≡ tie_rule_at 5 line.now) × (end ≡ no_more 6 line.now) }
    ensures { result ≡ question_item line.now s }
{
    if bare {
        Item::Set(s)
    } else if early.is_none() && end {
        Item::SetHeat(s)
    } else {
        Item::SetTies(s)
    }
}

#[tactic(auto, unfolding(crate::specs::Lines::question_line))]
fn question_line(line: &[u8]) -> Result<Command, Fault>
    ensures { result ≡ question_line line.now }
{
    let kind = Kind::Question;
    let slot = value(kind, line, 1, 255)?;
    let k = value(kind, line, 2, 255)?;
    let loss = weight(kind, line, 3)?;
    let shake = weight(kind, line, 4)?;
    let bare = no_more(line, 5);
    let early = rule(line, 5);
    let behind = no_more(line, 6);
    let heat = heat_weight(line, bare, early)?;
    let ties = tie_rule(line, early, behind).ok_or(Fault { kind, word: 6 })?;
    end(kind, line, 7)?;
    let setting = Setting {
        slot: slot as u8,
        k: k as u8,
        loss,
        shake,
        heat,
        ties,
    };
    Ok(Command::Item(question_item(line, bare, early, behind, setting)))
}

// The slot that is all that stands behind a line's first word.
#[tactic(auto, unfolding(crate::specs::Lines::slot_at))]
fn slot(kind: Kind, line: &[u8]) -> Result<u8, Fault>
    ensures { result ≡ slot_at kind line.now }
{
    let slot = value(kind, line, 1, 255)?;
    end(kind, line, 2)?;
    Ok(slot as u8)
}

// The edition of a report of this kind: the second has its heat in word 4.
#[tactic(auto, unfolding(crate::specs::Lines::edition_at))]
fn edition(kind: Kind, line: &[u8]) -> Result<Edition, Fault>
    ensures { result ≡ edition_at kind line.now }
{
    if kind.is_heated() {
        Ok(Edition::Second(value(kind, line, 4, 65535)? as u16))
    } else {
        Ok(Edition::First)
    }
}

#[tactic(auto, unfolding(crate::specs::Lines::report_line))]
fn report_line(kind: Kind, line: &[u8]) -> Result<Command, Fault>
    ensures { result ≡ report_line kind line.now }
{
    let sender = value(kind, line, 1, 255)?;
    let loss = value(kind, line, 2, 65535)?;
    let shake = value(kind, line, 3, 65535)?;
    let edition = edition(kind, line)?;
    let last = if kind.is_heated() { 5 } else { 4 };
    let own = value(kind, line, last, 4294967295)?;
    Ok(Command::Report(Sending {
        sender: sender as u8,
        report: Report {
            values: Values {
                loss: loss as u16,
                shake: shake as u16,
                edition,
            },
            own,
        },
        noted: kind.is_noted() || !no_more(line, last + 1),
    }))
}

#[tactic(auto, unfolding(crate::specs::Lines::time_line))]
fn time_line(line: &[u8]) -> Result<Command, Fault>
    ensures { result ≡ time_line line.now }
{
    let ms = value(Kind::Time, line, 1, 4294967295)?;
    end(Kind::Time, line, 2)?;
    Ok(Command::Time(Some(ms)))
}

#[tactic(auto, unfolding(crate::specs::Lines::untimed_line))]
fn untimed_line(line: &[u8]) -> Result<Command, Fault>
    ensures { result ≡ untimed_line line.now }
{
    end(Kind::Untimed, line, 1)?;
    Ok(Command::Time(None))
}

// ---- writing

fn put_report(room: &mut [u8], time: Option<u32>, s: Sending, note: &[u8]) -> Result<usize, Trouble>
    ensures value { result ≡ report_answer time s note.now }
    ensures room_after { room.new ≡ sets room.old 0 (run_bytes (report_items time s note.now)) }
{
    let mut frames = [0u8; Bench::LARGEST];
    let report = s.report;
    match Bench::send(&mut frames, s.sender, report, note_of(s, note)) {
        Ok(n) => {
            let size = put_frames(room, time, &frames, n / Bench::FRAME);
            Ok(size)
        }
        Err(refusal) => Err(Trouble::Refused(refusal)),
    }
}

// The note that goes with a report, if one does.
fn note_of(s: Sending, note: &[u8]) -> Option<&[u8]>
    ensures { option_copied result ≡ given s.noted note.now }
{
    if s.noted { Some(note) } else { None }
}

// A frame's item, by its identifier.
fn frame_item(time: Option<u32>, id: u32) -> Item
    ensures { result ≡ frame_item time id }
{
    match time {
        None => Item::Frame(id),
        Some(t) => Item::Timed(t, id),
    }
}

// Stores the first `count` frames as items, and answers how many bytes they take.
fn put_frames(room: &mut [u8], time: Option<u32>, frames: &[u8], count: usize) -> usize
    requires count_in_bounds { 12 * count ≤ length frames.now }
    requires frames_len_bound { length frames.now ≤ 168 }
    ensures value { result ≡ length (run_bytes (map (item_of_frame time) (frames_in count frames.now))) }
    ensures room_after { room.new ≡ sets room.old 0 (run_bytes (map (item_of_frame time) (frames_in count frames.now))) }
{
    let mut at = 0;
    for i in 0..count {
        let start = Bench::FRAME * i;
        let item = frame_item(time, wire::read32(frames, start));
        at += item.put(&frames[start + Item::DATA..start + Bench::FRAME], room, at);
    }
    at
}
