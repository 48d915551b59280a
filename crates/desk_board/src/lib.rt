// The desk's calls on the board: each is made, and what it answers is written to the front of `out`.
#![tactic(auto)]

ghost use Rattle.std.specs.Prelude.{◌<◌};
ghost use Rattle.window.specs.Rows.{row_count};

use board::{Board, Entered};
use orders::{BoardOrder, Setting};
use question::Question;
use ranking::{Rule, Weights};
use refusal::Refusal;
use replies::{put, put_counted, put_heat, put_mark, put_number, put_scored, refused};
use slot::Shown;
use values::{Edition, Name, Values};
use window::{Counts, Rows, Window};

// The board as a call leaves it, and where its answer ends.
#[derive(Clone, Copy)]
pub struct Left {
    pub board: Board,
    pub end: usize,
}

pub fn obeyed(board: Board, order: BoardOrder, out: &mut [u8]) -> Left {
    match order {
        BoardOrder::Set(setting) => set(board, setting.slot, setting.k, rule(setting), out),
        BoardOrder::Remove(slot) => remove(board, slot, out),
        BoardOrder::Enter(values) => enter(board, values, out),
        BoardOrder::Begin(slot) => begin(board, slot, out),
        BoardOrder::Step(slot) => step(board, slot, out),
        BoardOrder::Read(slot) => {
            let end = read(board.read(slot), out);
            Left { board, end }
        }
        BoardOrder::Marks(slot) => {
            let end = marks(pokes::slot(&board, slot), out);
            Left { board, end }
        }
        BoardOrder::Steps(slot) => {
            let steps = pokes::slot(&board, slot).steps();
            let end = put_counted(out, 0, b"steps", u64::from(steps));
            Left { board, end }
        }
        BoardOrder::Held => {
            let end = held(&board.window, out);
            Left { board, end }
        }
        BoardOrder::Poke(poke) => {
            let end = put(out, 0, b"ok");
            let board = pokes::poked(board, poke);
            Left { board, end }
        }
    }
}

// The rule that a line asks for. A weight of the heat that it doesn't say is 0, a range has all values, and ties go to the
// newest.
fn rule(setting: Setting) -> Rule {
    let weights = Weights {
        loss: setting.loss,
        shake: setting.shake,
        heat: 0,
    };
    pokes::ruled(Rule::of(weights), setting.extras)
}

fn set(board: Board, slot: u8, k: u8, rule: Rule, out: &mut [u8]) -> Left {
    match board.set(slot, k, rule) {
        Ok(placed) => {
            let end = put_counted(out, 0, b"steps", u64::from(placed.steps));
            Left {
                board: placed.board,
                end,
            }
        }
        Err(refusal) => {
            let end = refused(out, refusal.number());
            Left { board, end }
        }
    }
}

fn remove(board: Board, slot: u8, out: &mut [u8]) -> Left {
    done(board, board.remove(slot), out)
}

// Ok and the board that is left, or the refusal and the board as it was.
fn done(board: Board, left: Result<Board, Refusal>, out: &mut [u8]) -> Left {
    match left {
        Ok(board) => {
            let end = put(out, 0, b"ok");
            Left { board, end }
        }
        Err(refusal) => {
            let end = refused(out, refusal.number());
            Left { board, end }
        }
    }
}

fn begin(board: Board, slot: u8, out: &mut [u8]) -> Left {
    let answer = pokes::slot(&board, slot).begin(board.window);
    moved(board, slot, answer, out)
}

fn step(board: Board, slot: u8, out: &mut [u8]) -> Left {
    let answer = pokes::slot(&board, slot).step(board.window);
    moved(board, slot, answer, out)
}

// The slot's question as a step or a beginning leaves it; a refusal leaves the board.
fn moved(board: Board, slot: u8, answer: Result<Question, Refusal>, out: &mut [u8]) -> Left {
    let left = match answer {
        Ok(question) => Ok(pokes::with_slot(board, slot, question)),
        Err(refusal) => Err(refusal),
    };
    done(board, left, out)
}

fn read(answer: Result<Shown, Refusal>, out: &mut [u8]) -> usize {
    match answer {
        Ok(shown) => listed(shown, out),
        Err(refusal) => refused(out, refusal.number()),
    }
}

// The list's lines.
fn listed(shown: Shown, out: &mut [u8]) -> usize {
    let lines = shown.numbers.iter().zip(&shown.scores).zip(&shown.editions);
    let mut end = put_counted(out, 0, b"list", u64::from(shown.len));
    for ((number, score), edition) in lines.take(usize::from(shown.len)) {
        end = put_scored(out, end, u64::from(*number), *score);
        end = put_heat(out, end, b":", Edition::of(*edition));
    }
    end
}

fn enter(board: Board, values: Values, out: &mut [u8]) -> Left {
    match board.enter(values) {
        Ok(entered) => {
            let end = searches(&entered, out);
            Left {
                board: entered.board,
                end,
            }
        }
        Err(refusal) => {
            let end = refused(out, refusal.number());
            Left { board, end }
        }
    }
}

// The report's number, and the slots that were searched with their steps.
fn searches(entered: &Entered, out: &mut [u8]) -> usize {
    let mut end = put_counted(out, 0, b"report", u64::from(entered.number));
    for (slot, search) in entered.steps.iter().enumerate() {
        if let Some(steps) = search {
            end = put_number(out, end, slot as u64);
            end = put_mark(out, end, b":", u64::from(*steps));
        }
    }
    end
}

// How many cells are marked, and which.
fn marks(question: Question, out: &mut [u8]) -> usize {
    let marks = question.marks();
    let count = marks.iter().filter(|marked| **marked).count();
    let mut end = put_counted(out, 0, b"marks", count as u64);
    for (cell, marked) in marks.iter().enumerate() {
        if *marked {
            end = put_number(out, end, cell as u64);
        }
    }
    end
}

// The reports that a fit window holds, oldest first.
fn held(window: &Window, out: &mut [u8]) -> usize {
    if !window.fit() {
        return refused(out, Refusal::Unfit.number());
    }
    let counts = window.counts;
    let mut end = put_counted(out, 0, b"held", u64::from(counts.held));
    for older in 0..counts.held {
        end = row(window, row_of(counts, older), end, out);
    }
    end
}

// The row of the held report that so many older ones are held before.
fn row_of(counts: Counts, older: u16) -> usize
    ensures { result < row_count }
{
    let size = u32::from(counts.size);
    if size == 0 {
        return 0;
    }
    let oldest = counts.entered.wrapping_sub(u32::from(counts.held));
    oldest.wrapping_add(u32::from(older)) as usize % size as usize % Window::ROWS
}

// A row, with its heat, if there is one.
fn row(window: &Window, row: usize, at: usize, out: &mut [u8]) -> usize
    requires { row < row_count }
{
    let name = window.rows.names[row];
    let number = put_number(out, at, u64::from(Name::number(name)));
    let loss = put_mark(out, number, b":", u64::from(window.rows.losses[row]));
    let shake = put_mark(out, loss, b":", u64::from(window.rows.shakes[row]));
    put_heat(out, shake, b":", Name::edition(name))
}
