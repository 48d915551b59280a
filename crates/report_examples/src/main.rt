// The payload tried at its edges. Each line of `stdin` is a case: it is printed, and with it what is answered. `stdout`
// has what the rules (docs/RULES.md) ask for, as tests/expected/report_examples works it out.
//
// write ROOM LOSS SHAKE OWN NOTED LENGTH EDITION
//                                          the writer, with a note of that length: its answer, and the room of 255s that it leaves
// huge                                     the writer, with a note of 65,536 bytes, in a room of 96 zeros
// read BYTES..                             the reader: its answer, and the note
// long SIZE LENGTH                         the reader on P1's payload with zeros behind it, so many bytes, its note's length changed
// count AT BYTES..                         how many of the 255 other bytes at a place the reader takes
//
// BYTES are hexadecimal, the other numbers decimal. EDITION is one more than the heat, and 0 or nothing without one.
#![tactic(auto)]

use printing::{bytes, end, number, refused, text};
use report::{Payload, Report};
use values::{Edition, Values};

fn main(rt: HostRuntime) {
    let mut space = [0u8; 65536];
    let n = input::read_full(&mut rt.stdin(), &mut space);
    every_case(&rt, wire::front(&space, n));
}

fn every_case(rt: &impl Print, text: &[u8]) {
    for line in text.split_inclusive(|b| *b == b'\n') {
        case(rt, cases::without_end(line));
    }
}

// Prints one case.
fn case(rt: &impl Print, line: &[u8]) {
    let mut space = [0u8; 96];
    text(rt, line);
    match wire::byte(line, 0) {
        b'w' => write(rt, line),
        b'h' => written(rt, &mut space, line, Some(&[0u8; 65536])),
        b'r' => {
            let n = cases::bytes(line, 1, &mut space);
            read(rt, wire::front(&space, n));
        }
        b'l' => long(rt, line),
        b'c' => {
            let n = cases::bytes(line, 2, &mut space);
            count(rt, &mut space, n, usize::from(cases::byte(line, 1)));
        }
        _ => {}
    }
    end(rt);
}

fn write(rt: &impl Print, line: &[u8]) {
    let mut space = [255u8; 90];
    let size = usize::from(cases::byte(line, 1));
    let words: &[u8] = b"The left sieve lets more grain by than before, since the belt was";
    let note = wire::front(words, usize::from(cases::byte(line, 6)));
    let note = (cases::byte(line, 5) == 1).then_some(note);
    if size <= space.len() {
        written(rt, &mut space[..size], line, note);
    }
}

// What the writer answers, and the room that it leaves.
fn written(rt: &impl Print, room: &mut [u8], line: &[u8], note: Option<&[u8]>) {
    let values = Values {
        loss: cases::short(line, 2),
        shake: cases::short(line, 3),
        edition: Edition::of(cases::short(line, 7)),
    };
    let report = Report {
        values,
        own: cases::number(line, 4),
    };
    text(rt, b" written");
    match Payload::write(room, report, note) {
        Ok(n) => number(rt, n as u64),
        Err(refusal) => refused(rt, refusal.number()),
    }
    bytes(rt, room);
}

// What the reader answers for the bytes, and the note in them.
fn read(rt: &impl Print, p: &[u8]) {
    match Payload::read(p) {
        Ok(r) => accepted(rt, r),
        Err(refusal) => refused(rt, refusal.number()),
    }
    if Payload::has_note(p) {
        text(rt, b" note");
    }
    bytes(rt, Payload::note(p));
}

fn accepted(rt: &impl Print, r: Report) {
    text(rt, b" accepted");
    number(rt, u64::from(r.values.loss));
    number(rt, u64::from(r.values.shake));
    number(rt, u64::from(r.own));
    if let Edition::Second(heat) = r.values.edition {
        text(rt, b" heat");
        number(rt, u64::from(heat));
    }
}

fn long(rt: &impl Print, line: &[u8]) {
    let mut space = [0u8; 65556];
    let start = b"\x01\x02\x00\x64\x00\x02\x02\x00\xc8\x00\x03\x04\x00\x07\x00\x00\x00\x04";
    wire::put_all(&mut space, 0, start);
    wire::put16(&mut space, 18, cases::short(line, 2));
    read(rt, wire::front(&space, cases::number(line, 1) as usize));
}

// How many of the 255 other bytes at a place the reader takes.
fn count(rt: &impl Print, p: &mut [u8; 96], size: usize, at: usize) {
    let found = wire::byte(p, at);
    let mut count: u64 = 0;
    for more in 1..=u8::MAX {
        wire::put(p, at, found.wrapping_add(more));
        if Payload::read(wire::front(p, size)).is_ok() {
            count = count.saturating_add(1);
        }
    }
    wire::put(p, at, found);
    number(rt, count);
}
