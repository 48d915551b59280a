// The reader of captures: the text that `candump` prints on standard input, the log items of its frames on standard output. Frames that a
// log does not hold, or that aren't asked for, are counted, and a broken line is named, on standard error. Its words are `ours` for the frames
// that a report can be joined from, or another for all frames; `untimed` for frames without their times, or another; and then the name of an
// interface, or none for all of them.
#![tactic(auto)]

use capture::Sort;
use input::Input;
use items::Item;
use stamps::{Since, Stamp};
use std::env::Env;
use std::io::Read;

// How many lines were of each sort, and how many frames were written without a time.
#[derive(Clone, Copy, Default)]
struct Counts {
    frames: u64,
    untimed: u64,
    marked: u64,
    foreign: u64,
    elsewhere: u64,
    short: u64,
    remote: u64,
    error: u64,
    fd: u64,
    length: u64,
    beyond: u64,
    dropped: u64,
    broken: u64,
}

// What is asked for besides an interface: the frames that a report can be joined from, or all; with their times, or without.
#[derive(Clone, Copy)]
struct Asked {
    ours: bool,
    timed: bool,
}

// What the lines were, whether what was written for them was taken, and how long the name of the first interface is that a frame was written
// of, until a second one was named; where times count from, the last one that was written, and whether one before it was named.
#[derive(Clone, Copy)]
struct Reader {
    counts: Counts,
    going: bool,
    first: usize,
    told: bool,
    start: Option<Stamp>,
    last: Option<Stamp>,
    back: bool,
}

fn main(rt: HostRuntime) {
    let mut word = [0u8; Input::LONGEST];
    let size = argument(&rt, 1, &mut word);
    let ours = lines::same(wire::front(&word, size), b"ours");
    let mut times = [0u8; Input::LONGEST];
    let length = argument(&rt, 2, &mut times);
    let timed = !lines::same(wire::front(&times, length), b"untimed");
    let mut name = [0u8; Input::LONGEST];
    let named = argument(&rt, 3, &mut name);
    run(
        &mut rt.stdin(),
        &rt,
        &rt.stderr(),
        Asked { ours, timed },
        wire::front(&name, named),
    );
}

// Puts a word that the program was started with at the front of the bytes lent for it; how long it is, 0 where there is none or it doesn't fit.
fn argument(rt: &impl Env, n: usize, word: &mut [u8]) -> usize {
    rt.arg(n, word).unwrap_or(0)
}

// Takes line after line, to the end of the text, and then tells the counts; or to a read or a write that fails, which is said.
fn run(reader: &mut impl Read, out: &impl Print, err: &impl Print, asked: Asked, name: &[u8]) {
    let mut state = Reader::fresh();
    let mut input = Input::fresh();
    let mut line = [0u8; Input::LONGEST];
    let mut bus = [0u8; Input::LONGEST];
    let mut space = [0u8; 4096];
    for _ in 0..u64::MAX {
        match input.next(reader, &mut line, &mut space) {
            Ok(Some(found)) => {
                input = found;
                state = state.take(out, err, found, &line, asked, name, &mut bus);
            }
            Ok(None) => {
                summary(err, asked, state.counts);
                break;
            }
            Err(_) => {
                say(err, b"cart candump: the input can't be read\n");
                break;
            }
        }
        if !state.going {
            break;
        }
    }
}

impl Reader {
    fn fresh() -> Reader {
        Reader {
            counts: Counts::default(),
            going: true,
            first: 0,
            told: false,
            start: None,
            last: None,
            back: false,
        }
    }

    // Writes a line's item, if it has one that is asked for. A line that is too long is broken.
    fn take(
        self,
        out: &impl Print,
        err: &impl Print,
        found: Input,
        line: &[u8],
        asked: Asked,
        name: &[u8],
        bus: &mut [u8],
    ) -> Reader {
        if found.is_cut() {
            return self;
        }
        if !found.fits() {
            return self.count(err, found.number, Sort::Broken);
        }
        let text = wire::front(line, found.size);
        let stamp = stamp_of(text, asked.timed);
        let time = capture::since(self.start, stamp);
        let mut room = [0u8; Item::TIMED_BYTES];
        let sort = capture::write(text, asked.ours, name, time, &mut room);
        let reader = self.count(err, found.number, sort).started(stamp, sort);
        if !is_item(sort) {
            return reader;
        }
        let going = written(out, err, wire::front(&room, size_of(time)));
        reader
            .timed(err, found.number, stamp)
            .seen(err, found.number, going, dump::interface(text), bus)
    }

    // Keeps where times count from.
    fn started(mut self, stamp: Option<Stamp>, sort: Sort) -> Reader {
        self.start = capture::started(self.start, stamp, sort);
        self
    }

    // Counts a written frame that has no time, keeps the time of one that has, and names the first that is before the last.
    fn timed(mut self, err: &impl Print, number: u64, stamp: Option<Stamp>) -> Reader {
        let Some(time) = stamp else {
            self.counts.untimed = self.counts.untimed.wrapping_add(1);
            return self;
        };
        let last = self.last.map_or(0, |last| last.nanos);
        self.last = stamp;
        if !self.back && time.nanos < last {
            goes_back(err, number);
            self.back = true;
        }
        self
    }

    // Counts a line of a sort, and names it where it is broken.
    fn count(mut self, err: &impl Print, number: u64, sort: Sort) -> Reader {
        say_sort(err, number, sort);
        self.counts = counted(self.counts, sort);
        self
    }

    // Keeps the first interface that a frame was written of, and names the second, once.
    fn seen(
        mut self,
        err: &impl Print,
        number: u64,
        going: bool,
        name: &[u8],
        bus: &mut [u8],
    ) -> Reader {
        self.going = going;
        let first = self.first;
        if first == 0 {
            wire::put_all(bus, 0, name);
            self.first = name.len();
            return self;
        }
        if !self.told && !lines::same(wire::front(bus, first), name) {
            second(err, number, name);
            self.told = true;
        }
        self
    }
}

// The time of a line, where times are asked for.
fn stamp_of(text: &[u8], timed: bool) -> Option<Stamp> {
    if timed { dump::time(text) } else { None }
}

// The bytes of an item with this time.
fn size_of(time: Since) -> usize {
    match time {
        Since::At(_) => Item::TIMED_BYTES,
        _ => Item::FRAME_BYTES,
    }
}

// Whether a line of this sort has an item.
fn is_item(sort: Sort) -> bool {
    matches!(sort, Sort::Frame | Sort::Marked)
}

// The cart takes no frame before its sender's last one.
fn goes_back(err: &impl Print, number: u64) {
    say(err, b"line ");
    let _ = err.print(number);
    say(
        err,
        b": the time goes back: the cart refuses a frame before its sender's last one with 26; --untimed leaves times out\n",
    );
}

// One sender's number on two buses is two controllers.
fn second(err: &impl Print, number: u64, name: &[u8]) {
    say(err, b"line ");
    let _ = err.print(number);
    say(err, b": a second interface, ");
    say(err, name);
    say(
        err,
        b": one sender number on two is two controllers; --interface NAME takes one\n",
    );
}

// Whether an item could be written; where not, that is said.
fn written(out: &impl Print, err: &impl Print, item: &[u8]) -> bool {
    if out.write_all(item).is_ok() {
        return true;
    }
    say(err, b"cart candump: the output can't be written\n");
    false
}

fn say(err: &impl Print, text: &[u8]) {
    let _ = err.write_all(text);
}

// Names a line that can't be read.
fn say_sort(err: &impl Print, number: u64, sort: Sort) {
    if let Sort::Broken = sort {
        say(err, b"line ");
        let _ = err.print(number);
        say(
            err,
            b": broken; expected: (TIME) INTERFACE ID#DATA, or INTERFACE ID [N] XX .., as candump prints\n",
        );
    }
}

fn counted(counts: Counts, sort: Sort) -> Counts {
    let mut c = counts;
    match sort {
        Sort::Frame => c.frames = c.frames.wrapping_add(1),
        Sort::Marked => {
            c.frames = c.frames.wrapping_add(1);
            c.marked = c.marked.wrapping_add(1);
        }
        Sort::Foreign => c.foreign = c.foreign.wrapping_add(1),
        Sort::Elsewhere => c.elsewhere = c.elsewhere.wrapping_add(1),
        Sort::Short => c.short = c.short.wrapping_add(1),
        Sort::Remote => c.remote = c.remote.wrapping_add(1),
        Sort::Error => c.error = c.error.wrapping_add(1),
        Sort::Fd => c.fd = c.fd.wrapping_add(1),
        Sort::Length => c.length = c.length.wrapping_add(1),
        Sort::Beyond => c.beyond = c.beyond.wrapping_add(1),
        Sort::Dropped => c.dropped = c.dropped.wrapping_add(1),
        Sort::Nothing => {}
        Sort::Broken => c.broken = c.broken.wrapping_add(1),
    }
    c
}

// A number and what it counts.
fn item(err: &impl Print, n: u64, text: &[u8]) {
    let _ = err.print(n);
    say(err, text);
}

// The counts; those of times where times are asked for.
fn summary(err: &impl Print, asked: Asked, c: Counts) {
    item(err, c.frames, b" frames written");
    if asked.timed {
        say(err, b", ");
        item(err, c.untimed, b" of them without a time");
    }
    say(err, b"; passed over: ");
    item(err, c.short, b" with 11-bit identifiers, ");
    item(err, c.remote, b" remote, ");
    item(err, c.error, b" error, ");
    item(err, c.fd, b" CAN FD, ");
    item(err, c.length, b" of other lengths, ");
    item(err, c.foreign, b" that join no report, ");
    item(err, c.elsewhere, b" on other interfaces");
    if asked.timed {
        say(err, b", ");
        item(err, c.beyond, b" past the last time of a log");
    }
    say(err, b"; ");
    item(err, c.broken, b" broken lines, ");
    item(err, c.dropped, b" DROPCOUNT lines, ");
    item(err, c.marked, b" marks of a length over 8\n");
}
