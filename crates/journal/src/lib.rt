// A log of the bench: its items, what each does, and the lines of text that it prints.
#![tactic(auto)]

ghost use Rattle.std.specs.Prelude.{◌≡◌, ◌<◌, set};
ghost use Rattle.std.proofs.lemmas.List.Edits.{sets};
ghost use Rattle.refusal.specs.Numbers.{number_in};
ghost use Rattle.joining.specs.Frame.{frame_refusal};
ghost use Rattle.joining.specs.Run.{senders};
ghost use Rattle.times.specs.Run.{with_station, timed_at, untimed_at};
ghost use Rattle.text.specs.Text.{behind};
ghost use Rattle.journal.specs.Log.{Stores, fresh_log, next_item, with_item, stations_of, with_board, with_stations, refused, item_refusal, window_item, weights_of, setting_rule, rule_in, set_item, remove_item, show_item, steps_line, enter_item, answer_item, frame_item, by_item, item_done};
ghost use Rattle.journal.specs.Inner.{steps_lines};

use board::Board;
use bus::Bus;
use items::{Item, Setting};
use joining::{Answer, Session};
use ranking::{Rule, Weights};
use refusal::Refusal;
use slot::Gauge;
use times::{Station, Times};
use values::Values;

// The items so far, the window with its questions, and each sender's session and last time. A window of no rows is none yet.
#[derive(Clone, Copy)]
pub struct Log {
    pub items: u64,
    pub board: Board,
    pub sessions: [Session; Bus::SENDERS],
    pub times: Times,
}

// The log that an item leaves, and the place behind the text that it printed.
#[derive(Clone, Copy)]
pub struct Done {
    pub log: Log,
    pub at: usize,
}

impl Log {
    // The refusal of a log that ends inside an item.
    pub const CUT: u8 = 21;

    // No item yet, no window, every session fresh, and no times.
    pub fn fresh() -> Log
        ensures { result ≡ fresh_log }
    {
        let board = Board::none();
        let bus = Bus::fresh();
        let sessions = bus.sessions;
        let times = Times::fresh();
        Log {
            items: 0,
            board,
            sessions,
            times,
        }
    }

    // Takes a whole item and stores what it prints from `at` on; what lies past the end of `out` is not stored.
    pub fn item(self, tag: u8, value: &[u8], out: &mut [u8], at: usize) -> Done
        ensures { Stores (item_done self tag value.now) out.old at result.log result.at out.new }
    {
        let log = self.with_item();
        let item = Item::read(tag, value);
        match log.item_refusal(item) {
            Ok(()) => log.by_item(item, item.data_in(value), out, at),
            Err(refusal) => log.refused(refusal.number(), out, at),
        }
    }

    fn with_item(self) -> Log
        ensures { result ≡ with_item self }
    {
        let mut log = self;
        let items = next_item(self.items);
        log.items = items;
        log
    }

    fn with_board(self, board: Board) -> Log
        ensures { result ≡ with_board self board }
    {
        let mut log = self;
        log.board = board;
        log
    }

    // The log with another session of a sender; the times stay.
    fn with_session(self, k: usize, session: Session) -> Log
        requires { k < senders }
        ensures { result ≡ with_stations self (record { sessions = set self.sessions k session; times = self.times }) }
    {
        let mut log = self;
        let mut sessions = self.sessions;
        sessions[k] = session;
        log.sessions = sessions;
        log
    }

    // The log with another session and last time of a sender.
    fn with_station(self, sender: u8, station: Station) -> Log
        requires { sender < senders }
        ensures { result ≡ with_stations self (with_station (stations_of self) sender station) }
    {
        let session = station.session;
        let times = self.times;
        let kept = times.with(sender, station.last);
        let mut log = self.with_session(sender as usize, session);
        log.times = kept;
        log
    }

    // Prints a refusal.
    fn refused(self, code: u8, out: &mut [u8], at: usize) -> Done
        ensures { Stores (refused self code) out.old at result.log result.at out.new }
    {
        let next = text::put_r(out, at, self.items, code);
        Done {
            log: self,
            at: next,
        }
    }

    // Why an item is skipped, if it is.
    fn item_refusal(self, item: Item) -> Result<(), Refusal>
        ensures { number_in result ≡ item_refusal self item }
    {
        let board = self.board;
        let window = board.window;
        let counts = window.counts;
        let rows = counts.size;
        match item {
            Item::Unknown => Err(Refusal::UnknownItem),
            Item::Window(_) => if rows == 0 {
                Ok(())
            } else {
                Err(Refusal::ItemOutOfPlace)
            },
            _ => if rows == 0 {
                Err(Refusal::ItemOutOfPlace)
            } else {
                Ok(())
            },
        }
    }

    // Does what an item says; `data` is read for a frame.
    fn by_item(self, item: Item, data: &[u8], out: &mut [u8], at: usize) -> Done
        ensures { Stores (by_item self item «data».now) out.old at result.log result.at out.new }
    {
        match item {
            Item::Window(n) => self.window_item(n, out, at),
            Item::Set(s) | Item::SetHeat(s) | Item::SetTies(s) => self.set_item(s, out, at),
            Item::Frame(id) => self.frame_item(id, data, out, at),
            Item::Remove(slot) => self.remove_item(slot, out, at),
            Item::Show(slot) => self.show_item(slot, out, at),
            Item::Timed(time, id) => self.timed_item(time, id, data, out, at),
            Item::Unknown => Done { log: self, at },
        }
    }

    // Opens the window.
    fn window_item(self, size: u16, out: &mut [u8], at: usize) -> Done
        ensures { Stores (window_item self size) out.old at result.log result.at out.new }
    {
        match Board::fresh(size) {
            Ok(board) => Done {
                log: self.with_board(board),
                at,
            },
            Err(refusal) => self.refused(refusal.number(), out, at),
        }
    }

    // Sets a question and prints its search.
    fn set_item(self, s: Setting, out: &mut [u8], at: usize) -> Done
        ensures { Stores (set_item self s) out.old at result.log result.at out.new }
    {
        match self.board.set_work(s.slot, s.k, setting_rule(s)) {
            Ok(placed) => {
                let next = text::put_s(out, at, self.items, s.slot, placed.steps);
                Done {
                    log: self.with_board(placed.board),
                    at: next,
                }
            }
            Err(refusal) => self.refused(refusal.number(), out, at),
        }
    }

    // Empties a slot.
    fn remove_item(self, slot: u8, out: &mut [u8], at: usize) -> Done
        ensures { Stores (remove_item self slot) out.old at result.log result.at out.new }
    {
        match self.board.remove_work(slot) {
            Ok(board) => Done {
                log: self.with_board(board),
                at,
            },
            Err(refusal) => self.refused(refusal.number(), out, at),
        }
    }

    // Prints a slot's list.
    fn show_item(self, slot: u8, out: &mut [u8], at: usize) -> Done
        ensures { Stores (show_item self slot) out.old at result.log result.at out.new }
    {
        match self.board.read_work(slot) {
            Ok(shown) => {
                let len = shown.len as usize;
                let next = text::put_q(out, at, slot, shown.numbers, shown.scores, len);
                Done {
                    log: self,
                    at: next,
                }
            }
            Err(refusal) => self.refused(refusal.number(), out, at),
        }
    }

    // Hands a frame to its sender's session.
    fn frame_item(self, id: u32, data: &[u8], out: &mut [u8], at: usize) -> Done
        ensures { Stores (frame_item self (untimed_at id «data».now)) out.old at result.log result.at out.new }
    {
        let k = (id % 256) as usize;
        if Bus::SENDERS <= k {
            return self.refused(frame_number(id, data), out, at);
        }
        let sessions = self.sessions;
        let session = sessions[k];
        let taken = session.lend(id, data);
        let left = taken.session;
        let answer = taken.answer;
        self.with_session(k, left).answer_item(answer, out, at)
    }

    // Hands a frame that came at a time to its sender's session, beside its last time.
    fn timed_item(self, time: u32, id: u32, data: &[u8], out: &mut [u8], at: usize) -> Done
        ensures { Stores (frame_item self (timed_at time id «data».now)) out.old at result.log result.at out.new }
    {
        let sender = (id % 256) as u8;
        let k = sender as usize;
        if Bus::SENDERS <= k {
            return self.refused(frame_number(id, data), out, at);
        }
        let sessions = self.sessions;
        let session = sessions[k];
        let times = self.times;
        let last = times.of(sender);
        let heard = Station { session, last }.frame(time, id, data);
        let left = heard.station;
        let answer = heard.answer;
        self.with_station(sender, left).answer_item(answer, out, at)
    }

    // Prints a frame's refusal, or enters its report.
    fn answer_item(self, answer: Answer, out: &mut [u8], at: usize) -> Done
        ensures { Stores (answer_item self answer) out.old at result.log result.at out.new }
    {
        match answer {
            Err(refusal) => self.refused(refusal.number(), out, at),
            Ok(None) => Done { log: self, at },
            Ok(Some(report)) => self.enter_item(report.values, out, at),
        }
    }

    // Enters a report and prints the searches.
    fn enter_item(self, values: Values, out: &mut [u8], at: usize) -> Done
        ensures { Stores (enter_item self values) out.old at result.log result.at out.new }
    {
        match self.board.enter_work(values) {
            Ok(entered) => {
                let next = put_searches(out, at, self.items, entered.steps);
                Done {
                    log: self.with_board(entered.board),
                    at: next,
                }
            }
            Err(refusal) => self.refused(refusal.number(), out, at),
        }
    }
}

// The number of the item behind that many.
#[tactic(auto, unfolding(crate::specs::Log::next_item))]
pub fn next_item(items: u64) -> u64
    ensures { result ≡ next_item items }
{
    items.saturating_add(1)
}

// The rule of a question that is to be set.
fn setting_rule(s: Setting) -> Rule
    ensures { result ≡ setting_rule s }
{
    Rule::of(weights_of(s)).tied(s.ties)
}

fn weights_of(s: Setting) -> Weights
    ensures { result ≡ weights_of s }
{
    Weights {
        loss: s.loss,
        shake: s.shake,
        heat: s.heat,
    }
}

// The rule in the value of an item that sets a question.
pub fn rule_in(value: &[u8]) -> Rule
    ensures { result ≡ rule_in value.now }
{
    setting_rule(Setting::read(value))
}

// Prints a line for each question that was searched, slots rising.
fn put_searches(out: &mut [u8], at: usize, item: u64, steps: [Option<u16>; Gauge::SLOTS]) -> usize
    ensures value { result ≡ behind at (steps_lines item 0 steps) }
    ensures out_after { out.new ≡ sets out.old at (steps_lines item 0 steps) }
{
    let mut next = at;
    for i in 0..Gauge::SLOTS {
        next = put_search(out, next, item, i as u8, steps[i]);
    }
    next
}

// Prints the line of a slot: the steps of its search, if it was searched.
pub fn put_search(out: &mut [u8], at: usize, item: u64, slot: u8, search: Option<u16>) -> usize
    ensures value { result ≡ behind at (steps_line item slot search) }
    ensures out_after { out.new ≡ sets out.old at (steps_line item slot search) }
{
    match search {
        Some(steps) => text::put_s(out, at, item, slot, steps),
        None => at,
    }
}

// The number that a frame is refused with before any session is looked at, or 0.
#[tactic(auto, unfolding(joining::specs::Frame::frame_refusal))]
fn frame_number(id: u32, data: &[u8]) -> u8
    ensures { result ≡ frame_refusal id «data».now }
{
    match joining::frame_refusal(id, data) {
        Ok(()) => 0,
        Err(refusal) => refusal.number(),
    }
}
