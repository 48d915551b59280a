// The log program: a log on standard input, its lines on standard output.
#![tactic(auto)]

ghost use Rattle.std.specs.Prelude.{◌≡◌, length, take, IfSome, true, false};
ghost use Rattle.std.specs.Io.KnownBytes.{Appends};
ghost use Rattle.journal.specs.Log.{log_text};
ghost use Rattle.cart.specs.Turns.{Turns, Ends};

use journal::Log;
use pieces::Waiting;
use std::io::{Read, Write};

// What was handed over for printing: so many bytes from the start of a room, and whether they could be printed.
#[derive(Clone, Copy)]
struct Printed {
    count: usize,
    ok: bool,
}

// The log and what waits, behind the bytes that were taken; and what was handed over for printing.
#[derive(Clone, Copy)]
struct Turn {
    log: Log,
    waiting: Waiting,
    taken: usize,
    printed: Printed,
}

impl Printed {
    // Hands the first bytes of a room over for printing.
    fn front<W: Write>(out: &mut W, err: &impl Print, room: &[u8], count: usize) -> Printed
        ensures count { result.count ≡ length (take count room.now) }
        ensures printed { result.ok ≡ true → Appends (W.contents out.old) (W.contents out.new) (take result.count room.now) }
    {
        let text = wire::front(room, count);
        let ok = says(out, err, text);
        Printed {
            count: text.len(),
            ok,
        }
    }

    // Ends the log: hands over the line of an item that it ends inside.
    fn end<W: Write>(
        out: &mut W,
        err: &impl Print,
        log: Log,
        waiting: Waiting,
        room: &mut [u8; 65536],
    ) -> Printed
        ensures ends { Ends log waiting result room.new }
        ensures printed { result.ok ≡ true → Appends (W.contents out.old) (W.contents out.new) (take result.count room.new) }
    {
        let end = waiting.finish(log, room, 0);
        Printed::front(out, err, room, end)
    }
}

impl Turn {
    // Takes bytes of a piece of the log, and hands over what they print.
    fn of<W: Write>(
        out: &mut W,
        err: &impl Print,
        log: Log,
        waiting: Waiting,
        piece: &[u8],
        room: &mut [u8; 65536],
    ) -> Turn
        ensures turns { Turns log waiting piece.now result room.new }
        ensures printed { result.printed.ok ≡ true → Appends (W.contents out.old) (W.contents out.new) (take result.printed.count room.new) }
    {
        let fed = waiting.feed(log, piece, room);
        let left = fed.log;
        let next = fed.waiting;
        let printed = Printed::front(out, err, room, fed.written);
        Turn {
            log: left,
            waiting: next,
            taken: fed.taken,
            printed,
        }
    }
}

fn main(rt: HostRuntime) {
    run(&mut rt.stdin(), &mut rt.stdout(), &rt.stderr());
}

// Reads to the end of the log and prints what comes, a piece and a room at a time; whether all of it was read and printed. A read or a write that
// fails is said, and the log's end is then not printed. The log is handed to a turn and back, and copied nowhere else. A proved loop has to end,
// so it counts its turns to a number that no run reaches.
fn run<R: Read, W: Write>(input: &mut R, out: &mut W, err: &impl Print) -> bool
    ensures { result ≡ true → IfSome (R.remaining input.old) (λ bytes. Appends (W.contents out.old) (W.contents out.new) (log_text bytes)) }
{
    let mut log = Log::fresh();
    let mut waiting = Waiting::nothing();
    let mut space = [0u8; 65536];
    let mut room = [0u8; 65536];
    let mut n: usize = 0;
    let mut at: usize = 0;
    for _ in 0..u64::MAX {
        if at == n {
            n = match input.read(&mut space) {
                Ok(0) => return Printed::end(out, err, log, waiting, &mut room).ok,
                Ok(read) => read,
                Err(_) => return unread(err),
            };
            at = 0;
            continue;
        }
        let turn = Turn::of(out, err, log, waiting, &space[at..n], &mut room);
        let left = turn.log;
        let next = turn.waiting;
        log = left;
        waiting = next;
        at += turn.taken;
        if turn.taken == 0 || !turn.printed.ok {
            return false;
        }
    }
    false
}

// Says that a read failed; the run is not whole then.
fn unread(err: &impl Print) -> bool
    ensures { result ≡ false }
{
    let _ = err.write_all(b"cart: the input can't be read\n");
    false
}

// Whether a text could be printed; where not, that is said.
fn says<W: Write>(out: &mut W, err: &impl Print, text: &[u8]) -> bool
    ensures { result ≡ true → Appends (W.contents out.old) (W.contents out.new) text.now }
{
    if out.write_all(text).is_ok() {
        return true;
    }
    let _ = err.write_all(b"cart: the output can't be written\n");
    false
}
