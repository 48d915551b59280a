// What is answered, on standard output.
use joining::{Answer, Session};
use printing::{bytes, number, refused, text};
use refusal::Refusal;
use report::Report;
use values::Edition;

pub fn answer(rt: &impl Print, a: Answer) {
    text(rt, b"\n ");
    match a {
        Err(refusal) => refused(rt, refusal.number()),
        Ok(None) => text(rt, b" kept"),
        Ok(Some(r)) => report(rt, r),
    }
}

fn report(rt: &impl Print, r: Report) {
    text(rt, b" report");
    number(rt, u64::from(r.values.loss));
    number(rt, u64::from(r.values.shake));
    number(rt, u64::from(r.own));
    if let Edition::Second(heat) = r.values.edition {
        text(rt, b" heat");
        number(rt, u64::from(heat));
    }
}

// The size, the count and the next packet, and the payload bytes up to the last that isn't 255.
pub fn session(rt: &impl Print, s: Session) {
    text(rt, b" |");
    number(rt, u64::from(s.size));
    number(rt, u64::from(s.count));
    number(rt, u64::from(s.next));
    text(rt, b":");
    bytes(rt, wire::front(&s.bytes, used(&s.bytes)));
}

// How many bytes there are up to the last that isn't 255.
pub fn used(s: &[u8]) -> usize {
    s.iter().rposition(|b| *b != 255).map_or(0, |last| last + 1)
}

pub fn written(rt: &impl Print, answer: Result<usize, Refusal>) {
    text(rt, b" written");
    match answer {
        Ok(n) => number(rt, n as u64),
        Err(refusal) => refused(rt, refusal.number()),
    }
}
