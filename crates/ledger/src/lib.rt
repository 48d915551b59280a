// The board with the senders of its reports and each sender's tally: every call that is handed all of it.
#![tactic(auto)]

ghost use Rattle.std.specs.Prelude.{◌≡◌};
ghost use Rattle.slot.specs.Answers.{shown_answer};
ghost use Rattle.ledger.specs.Calls.{fit_ledger, with_board, fresh_ledger, set_call, remove_call, read_call, enter_call, tally_call, report_call};
ghost use Rattle.ledger.specs.Answers.{made_answer, placed_answer, removed_answer, entered_answer};

use board::Board;
use ranking::Rule;
use refusal::Refusal;
use senders::Senders;
use slot::{Gauge, Shown};
use tally::{FromSender, Tally};
use values::Values;

// The window with its questions, and beside it the senders of the held reports and every sender's tally.
#[derive(Clone, Copy)]
pub struct Ledger {
    pub board: Board,
    pub senders: Senders,
}

// What setting a question answers: the ledger with it, and the steps of its search.
#[derive(Clone, Copy)]
pub struct Placed {
    pub steps: u16,
    pub ledger: Ledger,
}

// What entering a report answers: its number, and the steps of each question that was searched.
#[derive(Clone, Copy)]
pub struct Entered {
    pub number: u32,
    pub steps: [Option<u16>; Gauge::SLOTS],
    pub ledger: Ledger,
}

impl Ledger {
    // A window of n rows, 32 empty slots and no tally of anything. Refused 18.
    pub fn fresh(n: u16) -> Result<Ledger, Refusal>
        ensures { result ≡ made_answer (fresh_ledger n) }
    {
        let board = Board::fresh(n)?;
        let senders = Senders::fresh();
        Ok(Ledger { board, senders })
    }

    // The board is fit, every row's sender is one that there is, or 0 where the row holds nothing, and every tally is what a fresh
    // pass over the held reports gives.
    pub fn fit(self) -> bool
        ensures { result ≡ fit_ledger self }
    {
        self.senders.fit(self.board.window) && self.board.slots_fit()
    }

    // Sets a question in an empty slot and searches it: the steps. Refused 24, 13, 14, 15, 30, 33, 16.
    pub fn set(self, slot: u8, k: u8, rule: Rule) -> Result<Placed, Refusal>
        ensures { result ≡ placed_answer (set_call self slot k rule) }
    {
        if !self.fit() {
            return Err(Refusal::Unfit);
        }
        let placed = self.board.set_work(slot, k, rule)?;
        Ok(Placed {
            steps: placed.steps,
            ledger: self.with_board(placed.board),
        })
    }

    // Empties a slot. Refused 24, 13, 17.
    pub fn remove(self, slot: u8) -> Result<Ledger, Refusal>
        ensures { result ≡ removed_answer (remove_call self slot) }
    {
        if !self.fit() {
            return Err(Refusal::Unfit);
        }
        let board = self.board.remove_work(slot)?;
        Ok(self.with_board(board))
    }

    // The list of a slot. Refused 24, 13, 17.
    pub fn read(self, slot: u8) -> Result<Shown, Refusal>
        ensures { result ≡ shown_answer (read_call self slot) }
    {
        if !self.fit() {
            return Err(Refusal::Unfit);
        }
        self.board.read_work(slot)
    }

    // Enters a report of that sender: its number, and the steps of each question that was searched. Refused 24, 3, 12, 11.
    pub fn enter(self, sender: u8, values: Values) -> Result<Entered, Refusal>
        ensures { result ≡ entered_answer (enter_call self sender values) }
    {
        if !self.board.slots_fit() {
            return Err(Refusal::Unfit);
        }
        let senders = self.senders.enter(self.board.window, sender, values)?;
        let entered = self.board.enter_work(values)?;
        let board = entered.board;
        let steps = entered.steps;
        Ok(Entered {
            number: entered.number,
            steps,
            ledger: Ledger { board, senders },
        })
    }

    // What a sender has in the window. Refused 24, 3.
    pub fn tally(self, sender: u8) -> Result<Tally, Refusal>
        ensures { result ≡ tally_call self sender }
    {
        if !self.fit() {
            return Err(Refusal::Unfit);
        }
        self.senders.tally(sender)
    }

    // The held report of that number with its sender, if it is held. Refused 24.
    pub fn report(self, number: u32) -> Result<Option<FromSender>, Refusal>
        ensures { result ≡ report_call self number }
    {
        if !self.fit() {
            return Err(Refusal::Unfit);
        }
        Ok(self.senders.report(self.board.window, number))
    }

    fn with_board(self, board: Board) -> Ledger
        ensures { result ≡ with_board self board }
    {
        let senders = self.senders;
        Ledger { board, senders }
    }
}
