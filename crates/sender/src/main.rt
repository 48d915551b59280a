// The bench sender: lines of text on standard input, the log items that they stand for on standard output. A wrong line is
// named on standard error with what is expected, and nothing of it is written.
#![tactic(auto)]

mod faults;

use commands::{Command, Kind, Trouble};
use faults::Expected;
use input::{Input, ReadFailed};
use refusal::Refusal;
use std::fmt;
use std::io::Read;

// Why the sender stops before the end of the text.
#[derive(Clone, Copy, Debug)]
enum Stop {
    Unread,
    Unwritten,
}

impl From<ReadFailed> for Stop {
    fn from(_failed: ReadFailed) -> Stop {
        Stop::Unread
    }
}

impl fmt::Display for Stop {
    fn fmt<W: fmt::Write>(&self, f: &mut fmt::Formatter<W>) -> fmt::Result {
        match self {
            Stop::Unread => write!(f, "the input can't be read"),
            Stop::Unwritten => write!(f, "the output can't be written"),
        }
    }
}

fn main(rt: HostRuntime) {
    let err = rt.stderr();
    if let Err(stop) = run(&mut rt.stdin(), &rt, &err) {
        let _ = println!(err; "cart send: {stop}");
    }
}

// Sends line after line, to the end of the text; or to a read or a write that fails.
fn run(reader: &mut impl Read, out: &impl Print, err: &impl Print) -> Result<(), Stop> {
    let mut input = Input::fresh();
    let mut line = [0u8; Input::LONGEST];
    let mut space = [0u8; 4096];
    let mut time = None;
    for _ in 0..u64::MAX {
        let Some(found) = input.next(reader, &mut line, &mut space)? else {
            break;
        };
        input = found;
        time = send(out, err, found, &line, time)?;
    }
    Ok(())
}

// Writes a line's items, its frames at this time, or what is wrong with it; the time of the frames behind it.
fn send(
    out: &impl Print,
    err: &impl Print,
    found: Input,
    line: &[u8],
    time: Option<u32>,
) -> Result<Option<u32>, Stop> {
    if found.is_cut() {
        return Ok(time);
    }
    let number = found.number;
    if !found.fits() {
        let _ = println!(err; "line {number}: longer than 512 bytes");
        return Ok(time);
    }
    let mut room = [0u8; Command::LARGEST];
    let text = wire::front(line, found.size);
    let outcome = commands::write(text, time, &mut room);
    match outcome.answer {
        Ok(n) => write(out, wire::front(&room, n))?,
        Err(Trouble::Wrong(fault)) => {
            let expected = Expected(fault);
            let _ = println!(err; "line {number}: {expected}");
        }
        Err(Trouble::Refused(refusal)) => {
            let refused = refused(refusal, Kind::of(lines::word(text, 0)));
            let _ = println!(err; "line {number}: {refused}");
        }
    }
    Ok(outcome.time)
}

fn write(out: &impl Print, items: &[u8]) -> Result<(), Stop> {
    out.write_all(items).map_err(|_| Stop::Unwritten)
}

// What the bench sender refuses: 3, 12 or 19.
fn refused(refusal: Refusal, kind: Kind) -> &'static str {
    match (refusal, kind) {
        (Refusal::NoSuchSender, _) => "SENDER is over 253",
        (Refusal::ValueOutOfRange, Kind::Heated | Kind::HeatedNoted) =>
            "LOSS, SHAKE or HEAT is over 4095",
        (Refusal::ValueOutOfRange, _) => "LOSS or SHAKE is over 4095",
        _ => "the note is longer than 64 bytes",
    }
}
