// Boards made up by hand, as the desk's pokes ask for them, the slots of a board, and a rule with what a line says in brackets.
#![tactic(auto)]

use board::Board;
use list::Lines;
use orders::{BoardPoke, LinePoke, RowPoke, RuleExtras, SlotPoke};
use question::Question;
use ranking::Rule;
use values::{Edition, Name};
use window::{Counts, Window};

// The board with what a poke stores.
pub fn poked(board: Board, poke: BoardPoke) -> Board {
    match poke {
        BoardPoke::Window {
            size,
            entered,
            held,
        } => with_counts(
            board,
            Counts {
                size,
                entered,
                held,
            },
        ),
        BoardPoke::Row(poke) => with_row(board, poke),
        BoardPoke::Slot(poke) => {
            let question = with_numbers(slot(&board, poke.slot), poke);
            with_slot(board, poke.slot, question)
        }
        BoardPoke::Line(poke) => {
            let question = with_line(slot(&board, poke.slot), poke);
            with_slot(board, poke.slot, question)
        }
    }
}

// The rule with the heat's weight, the ranges and the tie rule that a line says; what it doesn't say stays.
pub fn ruled(mut rule: Rule, extras: RuleExtras) -> Rule {
    rule.weights.heat = extras.heat.unwrap_or(rule.weights.heat);
    rule.ranges.loss = extras.loss.unwrap_or(rule.ranges.loss);
    rule.ranges.shake = extras.shake.unwrap_or(rule.ranges.shake);
    rule.ties = extras.ties.unwrap_or(rule.ties);
    rule
}

// The name of that number, with the edition that the name before it had unless a heat is said.
fn renamed(name: u32, number: u32, heat: Option<u16>) -> u32 {
    Name::of(number, heat.map_or(Name::edition(name), Edition::Second))
}

fn with_counts(mut board: Board, counts: Counts) -> Board {
    board.window.counts = counts;
    board
}

fn with_row(board: Board, poke: RowPoke) -> Board {
    let mut window = board.window;
    let slots = board.slots;
    let row = usize::from(poke.row);
    if row < Window::ROWS {
        window.rows.names[row] = renamed(window.rows.names[row], poke.number, poke.heat);
        window.rows.losses[row] = poke.loss;
        window.rows.shakes[row] = poke.shake;
    }
    Board { window, slots }
}

fn with_numbers(mut question: Question, poke: SlotPoke) -> Question {
    question.k = poke.k;
    question.rule.weights.loss = poke.loss;
    question.rule.weights.shake = poke.shake;
    question.rule = ruled(question.rule, poke.extras);
    question.len = poke.len;
    question.next = poke.next;
    question
}

fn with_line(mut question: Question, poke: LinePoke) -> Question {
    let place = usize::from(poke.place);
    if place < Lines::MOST {
        question.names[place] = renamed(question.names[place], poke.number, poke.heat);
        question.scores[place] = poke.score;
    }
    question
}

// The board with a question in that slot.
pub fn with_slot(mut board: Board, at: u8, question: Question) -> Board {
    if at < Board::SLOTS {
        board.slots[usize::from(at)] = question;
    }
    board
}

// The question in that slot.
pub fn slot(board: &Board, at: u8) -> Question {
    if at < Board::SLOTS {
        board.slots[usize::from(at)]
    } else {
        Question::fresh()
    }
}
