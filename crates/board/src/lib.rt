// The window with its 32 slots: standing questions that each have a list.
#![tactic(auto)]

ghost use Rattle.std.specs.Prelude.{◌≡◌, ◌<◌, Ok};
ghost use Rattle.window.specs.Rows.{report_limit};
ghost use Rattle.list.specs.Lines.{all_of};
ghost use Rattle.slot.specs.Fitness.{slot_fit};
ghost use Rattle.slot.specs.Gauges.{slot_count};
ghost use Rattle.board.specs.Work.{fresh_board, empty_board, with_slot, set_work, remove_work, read_work, leaving, arrival, enter_refusal, enter_work};
ghost use Rattle.board.specs.Calls.{fit_board, set_call, remove_call, read_call, enter_call};
ghost use Rattle.board.specs.Answers.{made_answer, placed_answer, removed_answer, entered_answer, arrival_answer};
ghost use Rattle.slot.specs.Answers.{shown_answer};
ghost use Rattle.refusal.specs.Answers.{answered};

use question::Question;
use ranking::Rule;
use refusal::Refusal;
use slot::{Gauge, Shown};
use values::{Name, Values};
use window::{Counts, Row, Window};

// The held reports, and a question in each slot that isn't empty.
#[derive(Clone, Copy)]
pub struct Board {
    pub window: Window,
    pub slots: [Question; Gauge::SLOTS],
}

// What setting a question answers: the board with it, and the steps of its search.
#[derive(Clone, Copy)]
pub struct Placed {
    pub steps: u16,
    pub board: Board,
}

// What entering a report answers: its number, and the steps of each question that was searched.
#[derive(Clone, Copy)]
pub struct Entered {
    pub number: u32,
    pub steps: [Option<u16>; Gauge::SLOTS],
    pub board: Board,
}

// What a report's entry comes to: its number and its name, and the number of the report that leaves, if one does.
#[derive(Clone, Copy)]
pub struct Arrival {
    pub number: u32,
    pub name: u32,
    pub oldest: Option<u32>,
}

impl Board {
    pub const SLOTS: u8 = 32;

    // A window of n rows and 32 empty slots. Refused 18.
    pub fn fresh(n: u16) -> Result<Board, Refusal>
        ensures { result ≡ made_answer (fresh_board n) }
    {
        let window = Window::fresh(n)?;
        Ok(Board::of(window))
    }

    // No window yet: one of no rows, and 32 empty slots.
    pub fn none() -> Board
        ensures { result ≡ (fresh_board 0).board }
    {
        Board::of(Window::none())
    }

    // A window with 32 empty slots.
    fn of(window: Window) -> Board
        ensures { result ≡ empty_board window }
    {
        let slots = [Question::fresh(); Gauge::SLOTS];
        Board { window, slots }
    }

    // Every stored number is in its range, the held numbers are the latest without a gap, and each slot is empty or holds a
    // fit question whose search has ended.
    #[tactic(auto, unfolding(crate::specs::Calls::fit_board))]
    pub fn fit(self) -> bool
        ensures { result ≡ fit_board self }
    {
        self.window.fit() && self.slots_fit()
    }

    // Sets a question in an empty slot and searches it: the board with it, and the steps. Refused 24, 13, 14, 15, 30,
    // 33, 16.
    #[tactic(auto, unfolding(crate::specs::Calls::set_call, refusal::specs::Answers::refusal_of))]
    pub fn set(self, slot: u8, k: u8, rule: Rule) -> Result<Placed, Refusal>
        ensures { result ≡ placed_answer (set_call self slot k rule) }
    {
        if !self.fit() {
            return Err(Refusal::Unfit);
        }
        self.set_work(slot, k, rule)
    }

    // Empties a slot. Refused 24, 13, 17.
    #[tactic(auto, unfolding(crate::specs::Calls::remove_call, refusal::specs::Answers::refusal_of))]
    pub fn remove(self, slot: u8) -> Result<Board, Refusal>
        ensures { result ≡ removed_answer (remove_call self slot) }
    {
        if !self.fit() {
            return Err(Refusal::Unfit);
        }
        self.remove_work(slot)
    }

    // The list of a slot. Refused 24, 13, 17.
    #[tactic(auto, unfolding(crate::specs::Calls::read_call, refusal::specs::Answers::refusal_of))]
    pub fn read(self, slot: u8) -> Result<Shown, Refusal>
        ensures { result ≡ shown_answer (read_call self slot) }
    {
        if !self.fit() {
            return Err(Refusal::Unfit);
        }
        self.read_work(slot)
    }

    // Enters a report: its number, and the steps of each question that was searched. Refused 24, 12, 11.
    #[tactic(auto, unfolding(crate::specs::Calls::enter_call, refusal::specs::Answers::refusal_of))]
    pub fn enter(self, values: Values) -> Result<Entered, Refusal>
        ensures { result ≡ entered_answer (enter_call self values) }
    {
        if !self.fit() {
            return Err(Refusal::Unfit);
        }
        self.enter_work(values)
    }

    // Sets a question on a board that is known to be fit: it is searched over the held reports.
    pub fn set_work(self, slot: u8, k: u8, rule: Rule) -> Result<Placed, Refusal>
        ensures { result ≡ placed_answer (set_work self slot k rule) }
    {
        if Board::SLOTS <= slot {
            return Err(Refusal::NoSuchSlot);
        }
        let held = self.slots[slot as usize];
        let found = slot::set_in(held, k, rule, &self.window.rows)?;
        Ok(Placed {
            steps: found.steps,
            board: self.with_slot(slot, found.question),
        })
    }

    // Empties a slot of a board that is known to be fit.
    pub fn remove_work(self, slot: u8) -> Result<Board, Refusal>
        ensures { result ≡ removed_answer (remove_work self slot) }
    {
        if Board::SLOTS <= slot {
            return Err(Refusal::NoSuchSlot);
        }
        let held = self.slots[slot as usize];
        slot::empty_refusal(held.k)?;
        Ok(self.with_slot(slot, slot::emptied(held)))
    }

    // The list of a slot of a board that is known to be fit.
    pub fn read_work(self, slot: u8) -> Result<Shown, Refusal>
        ensures { result ≡ shown_answer (read_work self slot) }
    {
        if Board::SLOTS <= slot {
            return Err(Refusal::NoSuchSlot);
        }
        slot::read_in(self.slots[slot as usize])
    }

    // Enters a report on a board that is known to be fit: each question lists it as its marks say, then the oldest leaves, and
    // each that lists that one is searched afresh.
    pub fn enter_work(self, values: Values) -> Result<Entered, Refusal>
        ensures { result ≡ entered_answer (enter_work self values) }
    {
        enter_refusal(self.window.counts, values)?;
        Ok(self.entering(values))
    }

    // A report that is not refused enters.
    fn entering(self, values: Values) -> Entered
        requires { enter_refusal self.window.counts values ≡ 0 }
        ensures { Ok result ≡ entered_answer (enter_work self values) }
    {
        let counts = self.window.counts;
        let number = counts.entered + 1;
        let row = Row {
            loss: values.loss,
            shake: values.shake,
            name: Name::of(number, values.edition),
        };
        let gone = leaving(counts);
        let window = self.window.added(values);
        let mut slots = self.slots;
        let mut steps = [None; Gauge::SLOTS];
        for (i, question) in self.slots.iter().enumerate() {
            let turned = slot::turn(*question, row, gone, &window.rows, Window::ROWS);
            slots[i] = turned.question;
            steps[i] = turned.steps;
        }
        Entered {
            number,
            steps,
            board: Board { window, slots },
        }
    }

    // Each slot is empty, or holds a fit question whose search has ended.
    pub fn slots_fit(self) -> bool
        ensures { result ≡ all_of (slot_fit self.window) self.slots }
    {
        self.slots
            .iter()
            .all(|question| slot::fit(*question, self.window))
    }

    // The board with that question in that slot.
    fn with_slot(self, slot: u8, question: Question) -> Board
        requires { slot < slot_count }
        ensures { result ≡ with_slot self slot question }
    {
        let at = slot as usize;
        let window = self.window;
        let mut slots = self.slots;
        slots[at] = question;
        Board { window, slots }
    }
}

// Why a report is not entered.
fn enter_refusal(counts: Counts, values: Values) -> Result<(), Refusal>
    ensures { result ≡ answered (enter_refusal counts values) tt }
{
    if !values.in_range() {
        return Err(Refusal::ValueOutOfRange);
    }
    if counts.entered < Window::REPORTS {
        Ok(())
    } else {
        Err(Refusal::WindowFull)
    }
}

// The number of the report that leaves when one enters; 0 for none.
#[tactic(auto, unfolding(crate::specs::Work::leaving))]
fn leaving(counts: Counts) -> u32
    requires { counts.entered < report_limit }
    ensures { result ≡ leaving counts }
{
    if counts.held < counts.size {
        return 0;
    }
    (counts.entered + 1).saturating_sub(u32::from(counts.size))
}

impl Arrival {
    // What a report's entry into a window of these counts comes to. Refused 12, 11.
    pub fn of(counts: Counts, values: Values) -> Result<Arrival, Refusal>
        ensures { result ≡ arrival_answer (arrival counts values) }
    {
        enter_refusal(counts, values)?;
        let number = counts.entered + 1;
        let oldest = leaving(counts);
        Ok(Arrival {
            number,
            name: Name::of(number, values.edition),
            oldest: if oldest == 0 { None } else { Some(oldest) },
        })
    }
}
