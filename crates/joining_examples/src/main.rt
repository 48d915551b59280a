// Frames, sessions, the sessions of a bus and the bench sender, tried at their edges. Each line of `stdin` is a case:
// it is printed, and with it what is answered. `stdout` has what the rules (docs/RULES.md) ask for, as tests/expected/joining_examples works it out.
//
// session SIZE COUNT NEXT USED   a session with these numbers and the first bytes of P1's payload, and whether it is fit
// frame ID DATA..                that session takes a frame: the answer, and the session left
// advance ID DATA..              the same, by the call that lends the session
// each ID DATA..                 whose the frame is, and what a fresh session, an ended one and an open one make of it
// payload                        the payload that the session holds, and its note
// bus                            a fresh session for every sender
// take ID DATA..                 the bus takes a frame: the answer
// left                           the sessions of the bus that are not fresh
// write ROOM SENDER LOSS SHAKE OWN NOTED LENGTH EDITION
//                                the bench sender, with a note of that length: its answer, and the room that it leaves
//
// ID and DATA are hexadecimal, the other numbers decimal. EDITION is one more than the heat, and 0 or nothing without one.
#![tactic(auto)]

mod calls;
mod print;

use bus::Bus;
use calls::{made, take};
use joining::Session;
use printing::{end, text};

fn main(rt: HostRuntime) {
    let mut space = [0u8; 65536];
    let n = input::read_full(&mut rt.stdin(), &mut space);
    every_case(&rt, wire::front(&space, n));
}

fn every_case(rt: &impl Print, text: &[u8]) {
    let mut room = [0u8; Bus::ROOM];
    let mut session = Session::fresh();
    for line in text.split_inclusive(|b| *b == b'\n') {
        session = case(rt, session, &mut room, cases::without_end(line));
    }
}

// Prints one case; the session that it leaves.
fn case(rt: &impl Print, session: Session, room: &mut [u8; Bus::ROOM], line: &[u8]) -> Session {
    let mut space = [0u8; 16];
    let n = cases::bytes(line, 2, &mut space);
    text(rt, line);
    let after = tried(
        rt,
        session,
        room,
        line,
        cases::hex(line, 1),
        wire::front(&space, n),
    );
    end(rt);
    after
}

fn tried(
    rt: &impl Print,
    session: Session,
    room: &mut [u8; Bus::ROOM],
    line: &[u8],
    id: u32,
    data: &[u8],
) -> Session {
    match wire::byte(line, 0) {
        b's' => return asked(rt, line),
        b'f' => return take(rt, session, id, data),
        b'a' => return calls::lend(rt, session, id, data),
        b'e' => each(rt, id, data),
        b'p' => calls::payload(rt, session),
        b'b' => calls::fresh(room),
        b't' => calls::heard(rt, room, id, data),
        b'l' => calls::left(rt, room),
        b'w' => calls::write(rt, line),
        _ => {}
    }
    session
}

fn asked(rt: &impl Print, line: &[u8]) -> Session {
    let session = made(
        cases::byte(line, 1),
        cases::byte(line, 2),
        cases::byte(line, 3),
        usize::from(cases::byte(line, 4)),
    );
    calls::fit(rt, session);
    session
}

fn each(rt: &impl Print, id: u32, data: &[u8]) {
    calls::sender(rt, id, data);
    take(rt, made(0, 0, 0, 0), id, data);
    take(rt, made(0, 0, 0, 17), id, data);
    take(rt, made(17, 3, 2, 7), id, data);
}
