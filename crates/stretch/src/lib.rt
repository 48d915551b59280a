// A stretch of a log's whole items, done where the log stands: frames, and items for a slot that there is. The window, the slots, the
// sessions and their last times are locals of one function for the whole stretch, so that a frame changes them in place and copies none of them.
#![tactic(auto)]

ghost use Rattle.std.specs.Prelude.{◌≡◌, true, cond, ◌&&◌, [], ◌+◌, ◌≤◌, ◌<◌, length};
ghost use Rattle.std.proofs.lemmas.List.Edits.{sets};
ghost use Rattle.wire.specs.Bytes.{number, part};
ghost use Rattle.text.specs.Text.{behind, r_line};
ghost use Rattle.bus.specs.Room.{room_bytes};
ghost use Rattle.times.specs.Run.{stations_in, Meets};
ghost use Rattle.window.specs.Rows.{row_count};
ghost use Rattle.journal.specs.Log.{frame_in};
ghost use Rattle.coming.specs.Coming.{size_at};
ghost use Rattle.coming.specs.Inner.{frame_size};
ghost use Rattle.stretch.specs.Inner.{rows_used, Stored, not_brought, brought, window_of, frame_of, put_back, times_by, Elsewhere, Begins, HearsAt, log_in, Runs};
ghost use Rattle.stretch.specs.Doing.{Does};

use board::{Arrival, Board};
use bus::Bus;
use items::Item;
use joining::Answer;
use journal::Log;
use question::Question;
use refusal::Refusal;
use slot::Gauge;
use times::{Last, Times};
use window::{Counts, Place, Row, Rows, Window};
use wire::Field;

// The log that the items leave, how many bytes they have, and the place behind their text.
#[derive(Clone, Copy)]
pub struct Stretch {
    pub log: Log,
    pub taken: usize,
    pub at: usize,
}

// What a frame brought: the line of a refusal, or a report with its number and as its row has it, and the number of the report that
// is gone then, 0 for none.
#[derive(Clone, Copy)]
struct Brought {
    refused: bool,
    code: u8,
    number: u32,
    gone: u32,
    row: Row,
}

// The place of a frame, 3 bytes before its identifier, and what its time refuses before it is taken, if anything. Beside it, of the last
// frame that had a time, its place and what its sender's last time was before: that is put back if the frame is refused.
#[derive(Clone, Copy)]
struct Begun {
    place: usize,
    refusal: Option<Refusal>,
    last: Option<(usize, Last)>,
}

// Where `run` starts and ends: the items' count and the board, how many bytes were taken, and the place behind the text.
#[derive(Clone, Copy)]
struct Standing {
    items: u64,
    board: Board,
    taken: usize,
    at: usize,
}

// Does the items that the bytes start with, as long as the next is done in place and `out` has room for whatever it prints,
// and stores their text from `at` on. The sessions stand in bytes meanwhile.
pub fn take(log: Log, bytes: &[u8], out: &mut [u8], at: usize) -> Stretch
    ensures { Does log bytes.now out.old at result out.new }
{
    let board = log.board;
    let sessions = log.sessions;
    let mut times = log.times;
    let mut bus = [0u8; Bus::ROOM];
    Bus::fill(&mut bus, sessions);
    let from = Standing {
        items: log.items,
        board,
        taken: 0,
        at,
    };
    let run = run(from, &mut bus, &mut times, bytes, out);
    let left = run.board;
    let standing = Bus::read(&bus);
    Stretch {
        log: Log {
            items: run.items,
            board: left,
            sessions: standing,
            times,
        },
        taken: run.taken,
        at: run.at,
    }
}

// The same with the sessions in bytes. The window and the slots are locals here, and their rows are lent, so that a frame
// changes them where they stand; beside each slot stands its gauge.
fn run(
    from: Standing,
    bus: &mut [u8; Bus::ROOM],
    times: &mut Times,
    bytes: &[u8],
    out: &mut [u8],
) -> Standing
    requires { length bus.old ≡ room_bytes }
    ensures { Runs from (log_in from bus.old times.old) bytes.now out.old result (log_in result bus.new times.new) out.new }
{
    let mut items = from.items;
    let mut at = from.at;
    let board = from.board;
    let window = board.window;
    let mut counts = window.counts;
    let mut rows = window.rows;
    let mut filled = rows_in(&rows.names);
    let mut slots = board.slots;
    let mut gauges = Gauge::of_slots(slots);
    let mut used = Gauge::in_use(slots);
    let mut i: usize = 0;
    let mut begun = Begun {
        place: 0,
        refusal: None,
        last: None,
    };
    // Stays: a turn takes as many bytes as its item has, so no range or iterator counts them.
    while coming::goes_on(counts.size, bytes, i, out.len(), at) {
        items = journal::next_item(items);
        let tag = bytes[i];
        if !coming::is_frame(tag) {
            let value = value_at(bytes, i);
            let s = wire::byte(value, 0) as usize;
            let held = slots[s];
            let slot = serving::serve(tag, items, value, held, &rows, out, at);
            let left = slot.question;
            slots[s] = left;
            gauges[s] = Gauge::of(left);
            used = Gauge::in_use(slots);
            at = slot.at;
            i += Field::HEAD + value.len();
            continue;
        }
        begun = begin(bus, times, tag, bytes, i, begun);
        i = begun.place;
        if let Some(refusal) = begun.refusal {
            at = serving::put_refusal(out, at, items, true, refusal.number());
            i += Item::FRAME_BYTES;
            continue;
        }
        let brought = hear(bus, times, begun, bytes, counts);
        at = serving::put_refusal(out, at, items, brought.refused, brought.code);
        i += Item::FRAME_BYTES;
        if brought.number == 0 {
            continue;
        }
        let place = Window::place(counts);
        counts.entered = brought.number;
        counts.held = place.held;
        filled = put_row(&mut rows, filled, place, brought.row);
        let values = brought.row.values();
        for slot in 0..used {
            let gauge = gauges[slot];
            if gauge.quiet(brought.gone, values) {
                continue;
            }
            let held = slots[slot];
            let turned = slot::turn(held, brought.row, brought.gone, &rows, filled);
            at = journal::put_search(out, at, items, slot as u8, turned.steps);
            let left = turned.question;
            slots[slot] = left;
            gauges[slot] = Gauge::of(left);
        }
    }
    end_of_run(items, counts, rows, slots, i, at)
}

// Where the items end: the window with these counts and rows, and the slots.
fn end_of_run(
    items: u64,
    counts: Counts,
    rows: Rows,
    slots: [Question; Gauge::SLOTS],
    taken: usize,
    at: usize,
) -> Standing
    ensures { result ≡ record { items = items; board = record { window = window_of counts rows; slots = slots }; taken = taken; at = at } }
{
    Standing {
        items,
        board: Board {
            window: Window { rows, counts },
            slots,
        },
        taken,
        at,
    }
}

// The value of the whole item at a place.
fn value_at(bytes: &[u8], i: usize) -> &[u8]
    requires { i + (3 + size_at bytes.now i) ≤ length bytes.now }
    ensures { result.now ≡ part (i + 3) (size_at bytes.now i) bytes.now }
{
    let start = i + Field::HEAD;
    let end = start + (wire::read16(bytes, i + 1) as usize);
    &bytes[start..end]
}

// How many rows there are up to the last one with a name.
fn rows_in(names: &[u32; Window::ROWS]) -> usize
    ensures { result ≡ rows_used row_count names.now }
{
    for at in (0..Window::ROWS).rev() {
        if names[at] != 0 {
            return at + 1;
        }
    }
    0
}

// Stores a report in its row: how many rows there are then up to the last one with a name.
fn put_row(rows: &mut Rows, filled: usize, place: Place, report: Row) -> usize
    ensures { Stored rows.old filled place.row report result rows.new }
{
    let row = place.row as usize;
    rows.put(row, report);
    filled.max(row + 1)
}

// Begins with the frame at a place: a time in it is met.
fn begin(
    room: &mut [u8; Bus::ROOM],
    times: &mut Times,
    tag: u8,
    bytes: &[u8],
    i: usize,
    last: Begun,
) -> Begun
    requires { (i + (3 + frame_size tag) ≤ length bytes.now) × (length room.old ≡ room_bytes) × Elsewhere i last.last }
    ensures { Begins (stations_in room.old times.old) (frame_of tag (part (i + 3) (frame_size tag) bytes.now)) (i + (3 + frame_size tag)) last result room.new times.new }
{
    if tag != Item::TIMED {
        return Begun {
            place: i,
            refusal: None,
            last: last.last,
        };
    }
    let met = meet(room, times, &bytes[i + Field::HEAD..i + Item::TIMED_BYTES]);
    let place = i + Item::TIME;
    match met {
        Err(refusal) => Begun {
            place,
            refusal: Some(refusal),
            last: last.last,
        },
        Ok(found) => Begun {
            place,
            refusal: None,
            last: Some((place, found)),
        },
    }
}

// Meets the time in the value of an item that has one.
fn meet(room: &mut [u8; Bus::ROOM], times: &mut Times, value: &[u8]) -> Result<Last, Refusal>
    requires { length value.now ≡ 16 }
    ensures { Meets (stations_in room.old times.old) (number (part 0 4 value.now)) (number (part 4 4 value.now)) (part 8 8 value.now) result room.new times.new }
{
    let time = wire::read32(value, 0);
    let id = wire::read32(value, Item::TIME);
    times.meet(
        room,
        time,
        id,
        &value[Item::TIME + Item::DATA..Item::TIMED_SIZE],
    )
}

// Hands the frame that ends an item to its sender's session: what that brings to a window of these counts.
fn hear(
    room: &mut [u8; Bus::ROOM],
    times: &mut Times,
    begun: Begun,
    bytes: &[u8],
    counts: Counts,
) -> Brought
    requires { begun.place + 15 ≤ length bytes.now }
    ensures { HearsAt (stations_in room.old times.old) begun (frame_in (part (begun.place + 3) 12 bytes.now)).frame counts result room.new times.new }
{
    let place = begun.place;
    let value = &bytes[place + Field::HEAD..place + Item::FRAME_BYTES];
    let id = wire::read32(value, 0);
    let answer = Bus::take(room, id, &value[Item::DATA..Item::FRAME_SIZE]);
    brings(times, begun, id, answer, counts)
}

// What an answer brings to a window of these counts; the last time of a refused frame's sender is put back.
fn brings(times: &mut Times, begun: Begun, id: u32, answer: Answer, counts: Counts) -> Brought
    ensures value { result ≡ brought answer counts }
    ensures times_after { times.new ≡ times_by begun answer id times.old }
{
    match answer {
        Err(refusal) => {
            put_back(times, begun, id);
            not_brought(true, refusal.number())
        }
        Ok(None) => not_brought(false, 0),
        Ok(Some(report)) => {
            let values = report.values;
            let mut row = Row {
                loss: values.loss,
                shake: values.shake,
                name: 0,
            };
            match Arrival::of(counts, values) {
                Err(refusal) => Brought {
                    refused: true,
                    code: refusal.number(),
                    number: 0,
                    gone: 0,
                    row,
                },
                Ok(arrival) => {
                    row.name = arrival.name;
                    Brought {
                        refused: false,
                        code: 0,
                        number: arrival.number,
                        gone: arrival.oldest.unwrap_or(0),
                        row,
                    }
                }
            }
        }
    }
}

// Puts back what its sender's last time was, if the frame had a time.
fn put_back(times: &mut Times, begun: Begun, id: u32)
    ensures { times.new ≡ put_back begun id times.old }
{
    if let Some((place, last)) = begun.last {
        if place == begun.place {
            times.put((id % 256) as u8, last);
        }
    }
}

fn not_brought(refused: bool, code: u8) -> Brought
    ensures { result ≡ not_brought refused code }
{
    Brought {
        refused,
        code,
        number: 0,
        gone: 0,
        row: Row {
            loss: 0,
            shake: 0,
            name: 0,
        },
    }
}
