// The calls that are tried, each in one place.
use crate::print;
use bench::Bench;
use bus::Bus;
use joining::{Frame, Session, Taken};
use printing::{number, refused, text};
use report::{Payload, Report};
use values::{Edition, Values};

// A session with these numbers and the first bytes of P1's payload.
pub fn made(size: u8, count: u8, next: u8, used: usize) -> Session {
    let payload = [1u8, 2, 0, 100, 0, 2, 2, 0, 200, 0, 3, 4, 0, 7, 0, 0, 0];
    let mut bytes = [255u8; Payload::LARGEST];
    wire::put_all(&mut bytes, 0, wire::front(&payload, used));
    Session {
        bytes,
        size,
        count,
        next,
    }
}

pub fn fit(rt: &impl Print, session: Session) {
    if session.fit() {
        text(rt, b" fit");
    } else {
        text(rt, b" unfit");
    }
    print::session(rt, session);
}

pub fn sender(rt: &impl Print, id: u32, data: &[u8]) {
    text(rt, b"\n  sender");
    match Frame::sender(id, data) {
        Ok(n) => number(rt, u64::from(n)),
        Err(refusal) => refused(rt, refusal.number()),
    }
}

// Prints a frame's answer and the session left, and hands that back.
pub fn take(rt: &impl Print, session: Session, id: u32, data: &[u8]) -> Session {
    shown(rt, session.frame(id, data))
}

// The same, by the call that lends the session.
pub fn lend(rt: &impl Print, session: Session, id: u32, data: &[u8]) -> Session {
    shown(rt, session.lend(id, data))
}

fn shown(rt: &impl Print, taken: Taken) -> Session {
    print::answer(rt, taken.answer);
    print::session(rt, taken.session);
    taken.session
}

// The payload that a finished session holds, and the note in it.
pub fn payload(rt: &impl Print, session: Session) {
    let payload = Session::payload(&session.bytes);
    number(rt, payload.len() as u64);
    if Payload::has_note(payload) {
        text(rt, b" note");
    } else {
        text(rt, b" no note");
    }
    printing::bytes(rt, Payload::note(payload));
}

pub fn fresh(room: &mut [u8; Bus::ROOM]) {
    Bus::fill(room, Bus::fresh().sessions);
}

pub fn heard(rt: &impl Print, room: &mut [u8; Bus::ROOM], id: u32, data: &[u8]) {
    print::answer(rt, Bus::take(room, id, data));
}

// The sessions that are not fresh.
pub fn left(rt: &impl Print, room: &[u8; Bus::ROOM]) {
    let sessions = Bus::read(room);
    for (sender, session) in sessions.iter().enumerate() {
        if session.size != 0 || print::used(&session.bytes) != 0 {
            text(rt, b"\n ");
            number(rt, sender as u64);
            print::session(rt, *session);
        }
    }
}

pub fn write(rt: &impl Print, line: &[u8]) {
    let mut space = [238u8; 169];
    let size = usize::from(cases::byte(line, 1));
    if size <= space.len() {
        write_in(rt, &mut space[..size], line);
    }
}

fn write_in(rt: &impl Print, room: &mut [u8], line: &[u8]) {
    let values = Values {
        loss: cases::short(line, 3),
        shake: cases::short(line, 4),
        edition: Edition::of(cases::short(line, 8)),
    };
    let report = Report {
        values,
        own: cases::number(line, 5),
    };
    let words: &[u8] = b"The left sieve lets more grain by than before, since the belt was";
    let note = wire::front(words, usize::from(cases::byte(line, 7)));
    let note = (cases::byte(line, 6) == 1).then_some(note);
    print::written(rt, Bench::send(room, cases::byte(line, 2), report, note));
    text(rt, b"\n ");
    printing::bytes(rt, room);
}
