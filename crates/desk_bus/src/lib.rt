// The desk's frames, sessions, payloads and bench sender: each call is made, and what it answers is written to the front of `out`.
#![tactic(auto)]

ghost use Rattle.std.specs.Prelude.{◌≡◌, ◌*◌};

use bench::Bench;
use bus::Bus;
use joining::Answer;
use orders::{BusOrder, BusPoke, Heard, Sending, SessionPoke};
use ranges::Bytes;
use replies::{put, put_bytes, put_counted, put_heat, put_identifier, put_number, refused};
use report::{Payload, Report};
use times::{Last, Times};

// No line holds more bytes than this.
const BYTES: usize = 256;

// What is kept of the senders: their sessions, as they stand in the lent bytes, and their last times.
#[derive(Clone, Copy)]
pub struct Senders {
    pub room: [u8; Bus::ROOM],
    pub times: Times,
}

impl Senders {
    // A fresh session for each, and no time.
    pub fn fresh() -> Senders {
        let mut room = [0u8; Bus::ROOM];
        Bus::fill(&mut room, Bus::fresh().sessions);
        let times = Times::fresh();
        Senders { room, times }
    }

    // Where the answer ends.
    pub fn obey(&mut self, order: BusOrder, out: &mut [u8]) -> usize {
        match order {
            BusOrder::Frame(heard) => self.frame(heard, out),
            BusOrder::Session(sender) => {
                let end = session(self.place(sender), out);
                put_last(self.times.of(sender), end, out)
            }
            BusOrder::Payload(bytes) => payload(bytes, out),
            BusOrder::Write(sending) => write(sending, out),
            BusOrder::Poke(poke) => {
                self.poke(poke);
                put(out, 0, b"ok")
            }
        }
    }

    // Stores what a poke asks for.
    fn poke(&mut self, poke: BusPoke) {
        match poke {
            BusPoke::Session(poke) => self.poke_session(poke),
            BusPoke::Byte {
                sender,
                place,
                value,
            } => wire::put(&mut self.room, start(sender) + usize::from(place), value),
            BusPoke::Untimed { sender, time } => self.poke_time(sender, false, time),
        }
    }

    fn poke_session(&mut self, poke: SessionPoke) {
        let at = start(poke.sender);
        wire::put(&mut self.room, at + Bus::SIZE, poke.size);
        wire::put(&mut self.room, at + Bus::COUNT, poke.count);
        wire::put(&mut self.room, at + Bus::NEXT, poke.next);
        if let Some(time) = poke.time {
            self.poke_time(poke.sender, true, time);
        }
    }

    // Stores whether there is a last time, and which.
    fn poke_time(&mut self, sender: u8, known: bool, at: u32) {
        self.times.put(sender, Last { known, at });
    }

    // A sender's session where it stands.
    fn place(&self, sender: u8) -> &[u8] {
        wire::front(back(&self.room, start(sender)), Bus::PLACE)
    }

    // A frame for its sender's session. The size of the payload that it may end is the one that the session had before.
    fn frame(&mut self, heard: Heard, out: &mut [u8]) -> usize {
        let [sender, ..] = heard.id.to_le_bytes();
        let size = usize::from(wire::byte(self.place(sender), Bus::SIZE));
        match self.take(heard) {
            Err(refusal) => refused(out, refusal.number()),
            Ok(None) => put(out, 0, b"kept"),
            Ok(Some(report)) => { put_report(report, wire::front(self.place(sender), size), out) }
        }
    }

    // The call of a frame with a time, or of one without.
    fn take(&mut self, heard: Heard) -> Answer {
        let mut bytes = [0u8; BYTES];
        let n = heard.data.put(&mut bytes);
        let frame = wire::front(&bytes, n);
        match heard.time {
            None => Bus::take(&mut self.room, heard.id, frame),
            Some(time) => self.times.take(&mut self.room, time, heard.id, frame),
        }
    }
}

// Where a sender's session stands.
fn start(sender: u8) -> usize
    ensures { result ≡ 92 * sender }
{
    Bus::PLACE * usize::from(sender)
}

// What stands from `at` on.
fn back(s: &[u8], at: usize) -> &[u8] {
    &s[at.min(s.len())..]
}

// A report, with the note of its payload.
fn put_report(report: Report, payload: &[u8], out: &mut [u8]) -> usize {
    let values = report.values;
    let own = put_counted(out, 0, b"report", u64::from(report.own));
    let loss = put_number(out, own, u64::from(values.loss));
    let shake = put_number(out, loss, u64::from(values.shake));
    let heat = put_heat(out, shake, b" heat ", values.edition);
    if !Payload::has_note(payload) {
        return heat;
    }
    let end = put(out, heat, b" note");
    put_word(Payload::note(payload), end, out)
}

// A space and bytes; nothing where there are none.
fn put_word(bytes: &[u8], at: usize, out: &mut [u8]) -> usize {
    if bytes.is_empty() {
        return at;
    }
    let end = put(out, at, b" ");
    put_bytes(out, end, bytes)
}

fn session(place: &[u8], out: &mut [u8]) -> usize {
    let size = put_counted(out, 0, b"session", u64::from(wire::byte(place, Bus::SIZE)));
    let count = put_number(out, size, u64::from(wire::byte(place, Bus::COUNT)));
    let next = put_number(out, count, u64::from(wire::byte(place, Bus::NEXT)));
    put_word(wire::front(place, Payload::LARGEST), next, out)
}

// A sender's last time, if there is one.
fn put_last(last: Last, at: usize, out: &mut [u8]) -> usize {
    if last.known {
        put_counted(out, at, b" at", u64::from(last.at))
    } else {
        at
    }
}

// The payload's reader alone.
fn payload(payload: Bytes, out: &mut [u8]) -> usize {
    let mut bytes = [0u8; BYTES];
    let n = payload.put(&mut bytes);
    let payload = wire::front(&bytes, n);
    match Payload::read(payload) {
        Err(refusal) => refused(out, refusal.number()),
        Ok(report) => put_report(report, payload, out),
    }
}

// The bench sender. The room that is lent is as much as any report needs, unless less is said.
fn write(sending: Sending, out: &mut [u8]) -> usize {
    let mut bytes = [0u8; BYTES];
    let n = sending.note.map_or(0, |note| note.put(&mut bytes));
    let mut space = [0u8; Bench::LARGEST];
    let lent = sending.room.map_or(Bench::LARGEST, |n| n as usize);
    let answer = Bench::send(
        &mut space[..lent.min(Bench::LARGEST)],
        sending.sender,
        Report {
            values: sending.values,
            own: sending.own,
        },
        sending.note.map(|_| wire::front(&bytes, n)),
    );
    match answer {
        Err(refusal) => refused(out, refusal.number()),
        Ok(size) => put_frames(wire::front(&space, size), out),
    }
}

fn put_frames(bytes: &[u8], out: &mut [u8]) -> usize {
    let frames = bytes.chunks_exact(Bench::FRAME);
    let mut end = put_counted(out, 0, b"frames", frames.len() as u64);
    for frame in frames {
        end = put_frame(frame, end, out);
    }
    end
}

fn put_frame(frame: &[u8], at: usize, out: &mut [u8]) -> usize {
    let space = put(out, at, b" ");
    let id = put_identifier(out, space, wire::read32(frame, 0));
    let end = put(out, id, b" ");
    put_bytes(out, end, back(frame, Bench::IDENTIFIER))
}
