// The desk: lines of text on standard input, an answer to each on standard output (docs/DESK.md). Every public call can be made, on any state.
#![tactic(auto)]

use board::Board;
use desk_bus::Senders;
use input::Input;
use orders::{BoardOrder, Order};
use replies::{put, refused};
use std::io::IsTerminal;

// The board, if a window was made, and the senders.
#[derive(Clone, Copy)]
struct Desk {
    board: Option<Board>,
    senders: Senders,
}

// Answers line after line, to the end of the text; or to a read or a write that fails, which is said.
fn main(rt: HostRuntime) {
    let mut reader = rt.stdin();
    let err = rt.stderr();
    let mut input = Input::fresh();
    let mut line = [0u8; Input::LONGEST];
    let mut space = [0u8; 4096];
    let mut out = [0u8; 65536];
    let mut desk = Desk {
        board: None,
        senders: Senders::fresh(),
    };
    greet(rt);
    for _ in 0..u64::MAX {
        match input.next(&mut reader, &mut line, &mut space) {
            Ok(Some(found)) => input = found,
            Ok(None) => break,
            Err(_) => {
                say(&err, b"cart desk: the input can't be read\n");
                break;
            }
        }
        let end = desk.answer(input, &line, &mut out);
        if !written(&rt, &err, &mut out, end) {
            break;
        }
    }
}

// Says what this is, where a person sits before it.
fn greet(rt: HostRuntime) {
    if rt.stdin().is_terminal() && rt.stdout().is_terminal() {
        let _ = rt.write_all(
            b"The desk: a line is a call, and its answer comes below it.\nhelp lists all lines; window 3 is a start. Ctrl-D ends.\n",
        );
    }
}

fn say(err: &impl Print, text: &[u8]) {
    let _ = err.write_all(text);
}

// Writes the answer that ends there, if there is one, with its line end. False where it could not be written, which is said.
fn written(to: &impl Print, err: &impl Print, out: &mut [u8], end: usize) -> bool {
    if end == 0 {
        return true;
    }
    let stop = put(out, end, b"\n");
    if to.write_all(wire::front(out, stop)).is_ok() {
        return true;
    }
    say(err, b"cart desk: the output can't be written\n");
    false
}

// Each answers where the answer ends, which is written to the front of `out`; 0 where there is none.
impl Desk {
    // What came of a line that could not be read to its end stands for nothing.
    fn answer(&mut self, found: Input, line: &[u8], out: &mut [u8]) -> usize {
        if found.is_cut() {
            return 0;
        }
        if !found.fits() {
            return put(out, 0, b"wrong: the line is longer than 512 bytes");
        }
        self.obey(Order::of(wire::front(line, found.size)), out)
    }

    fn obey(&mut self, order: Order, out: &mut [u8]) -> usize {
        match order {
            Order::Nothing => 0,
            Order::NoText => put(out, 0, b"wrong: the line is no text"),
            Order::Wrong(form) => forms::expected(out, form),
            Order::Help => forms::help(out),
            Order::Window(n) => self.window(n, out),
            Order::Board(order) => self.on_board(order, out),
            Order::Bus(order) => self.senders.obey(order, out),
        }
    }

    // A fresh window and empty slots in place of what there was.
    fn window(&mut self, n: u16, out: &mut [u8]) -> usize {
        match Board::fresh(n) {
            Ok(board) => {
                self.board = Some(board);
                put(out, 0, b"ok")
            }
            Err(refusal) => refused(out, refusal.number()),
        }
    }

    fn on_board(&mut self, order: BoardOrder, out: &mut [u8]) -> usize {
        let Some(board) = self.board else {
            return put(out, 0, b"no window");
        };
        let left = desk_board::obeyed(board, order, out);
        self.board = Some(left.board);
        left.end
    }
}
