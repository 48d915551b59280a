// One question: its rule, its list of at most 16 lines, and how far its search has come.
#![tactic(auto)]

ghost use Rattle.std.specs.Prelude.{◌≡◌, [], min, ◌≤◌, take, drop};
ghost use Rattle.search.specs.Best.{best, placed};
ghost use Rattle.ranking.specs.Standing.{above};
ghost use Rattle.window.specs.Rows.{row_count, report_at};
ghost use Rattle.list.specs.Lines.{most_lines, lines_of, all_of, blank};
ghost use Rattle.list.specs.Rows.{rows_in};
ghost use Rattle.question.specs.Lines.{asked, list_of, holding, with_list, lines, empty_slot, with_entry, cut_to_k, finished, begun, step_on, searched_on, searched_first, steps_taken, is_marked, is_past, marks_of, ended_of, with_next, cut_with};
ghost use Rattle.question.specs.Calls.{holds_number, held_as, next_fits, ranges_fit, fit_question, step_call, begin_call, answered};
ghost use Rattle.question.specs.Inner.{taking, list_taken};

use list::{Lines, gathered};
use ranking::{Grid, Rule};
use refusal::Refusal;
use values::Name;
use window::{Counts, Row, Rows, Window};

// `next` is the cell that the search takes next, 256 where none is left: the cells before it in the visiting order are the
// marked ones. An empty slot has k 0 and everything else 0, and so has every line past the first `len`. The fields' order is
// for speed (docs/SPEED.md).
#[derive(Clone, Copy)]
pub struct Question {
    pub names: [u32; Lines::MOST],
    pub rule: Rule,
    pub scores: [i32; Lines::MOST],
    pub k: u8,
    pub next: u16,
    pub len: u8,
}

// A question whose search has ended, and the steps that it took.
#[derive(Clone, Copy)]
pub struct Searched {
    pub steps: u16,
    pub question: Question,
}

impl Question {
    // A list's room, and the largest k.
    pub const LINES: u8 = 16;

    // One for each cell.
    pub const MARKS: usize = 256;

    // An empty slot.
    pub fn fresh() -> Question
        ensures { result ≡ empty_slot }
    {
        Question::without_lines(0, Rule::none(), 0)
    }

    // A question with no lines.
    fn without_lines(k: u8, rule: Rule, next: u16) -> Question
        ensures { result ≡ asked k rule [] next }
    {
        let names = [0u32; Lines::MOST];
        let scores = [0i32; Lines::MOST];
        Question {
            k,
            rule,
            names,
            scores,
            len: 0,
            next,
        }
    }

    // Its list.
    fn list(self) -> Lines
        ensures { result ≡ list_of self }
    {
        let names = self.names;
        let scores = self.scores;
        Lines {
            names,
            scores,
            len: self.len,
        }
    }

    // This question with another list.
    fn holding(self, list: Lines) -> Question
        ensures { result ≡ holding self list }
    {
        let rule = self.rule;
        let names = list.names;
        let scores = list.scores;
        Question {
            k: self.k,
            rule,
            names,
            scores,
            len: list.len,
            next: self.next,
        }
    }

    // One entry put in its rank among the lines, once, of which at most `most` are kept.
    fn placed_within(self, most: usize, name: u32, score: i32) -> Question
        ensures { result ≡ with_list self (take (min most most_lines) (placed (above self.rule) (record { name = name; score = score }) (lines self))) }
    {
        self.holding(self.list().placed(self.rule, most, name, score))
    }

    // One entry put in its rank among the lines, once, of which at most 16 are kept.
    pub fn with_entry(self, name: u32, score: i32) -> Question
        ensures { result ≡ with_entry self (record { name = name; score = score }) }
    {
        self.placed_within(Lines::MOST, name, score)
    }

    // The first k lines.
    pub fn cut_to_k(self) -> Question
        ensures { result ≡ cut_to_k self }
    {
        self.holding(self.list().first_lines(self.k as usize))
    }

    // One entry among the first k.
    pub fn cut_with(self, name: u32, score: i32) -> Question
        ensures { result ≡ cut_with self (record { name = name; score = score }) }
    {
        self.placed_within(self.k as usize, name, score)
    }

    // The search has ended (rule 7.6): no cell is left, or k lines are there and the cell that comes next can't reach the
    // last of them.
    pub fn finished(self) -> bool
        ensures { result ≡ finished self }
    {
        let next = self.next;
        if !self.rule.in_order(next) {
            return true;
        }
        let bar = self.list().bar(self.k);
        bar.full && self.rule.best_score(next as u8) < bar.score
    }

    // A search anew: no lines, and the first cell is next.
    fn begun(self) -> Question
        ensures { result ≡ begun self }
    {
        Question::without_lines(self.k, self.rule, self.rule.first_cell())
    }

    // The best k of the lines.
    fn ranked(self) -> Question
        requires { self.k ≤ most_lines }
        ensures { result ≡ with_list self (best (above self.rule) self.k (lines self)) }
    {
        self.holding(self.list().best(self.rule, self.k as usize))
    }

    // The report of one row joins the lines, if it lies in the next cell and counts.
    #[tactic(auto, unfolding(crate::specs::Inner::taking))]
    fn taking(self, row: Row) -> Question
        ensures { result ≡ taking self (report_at row) }
    {
        let values = row.values();
        let cell = u16::from(Grid::cell(values));
        if Name::number(row.name) == 0 || cell != self.next {
            return self;
        }
        match self.rule.score(values) {
            Some(score) => self.cut_with(row.name, score),
            None => self,
        }
    }

    // The best k of the lines and of the next cell's reports.
    fn list_taken(self, window: Window) -> Question
        requires { self.k ≤ most_lines }
        ensures { result ≡ list_taken self window row_count }
    {
        let mut list = self.ranked();
        for row in 0..Window::ROWS {
            list = list.taking(window.rows.row(row));
        }
        list
    }

    // The same list, and another cell is next.
    fn with_next(self, next: u16) -> Question
        ensures { result ≡ with_next self next }
    {
        let mut question = self;
        question.next = next;
        question
    }

    // One step of the search, whatever the window's rows hold; none, where k is over 16 or no cell is left.
    pub fn stepped(self, window: Window) -> Question
        ensures { result ≡ step_on self window }
    {
        let next = self.next;
        if Question::LINES < self.k {
            return self;
        }
        if !self.rule.in_order(next) {
            return self;
        }
        let list = self.list_taken(window);
        list.with_next(self.rule.next_cell(next))
    }

    // A search from its beginning to its end, whatever the window's rows hold; none, where k is over 16.
    pub fn searched(self, window: Window) -> Searched
        ensures { result ≡ searched_on self window }
    {
        self.searched_in(&window.rows, Window::ROWS)
    }

    // The same over the reports in the first `n` rows alone, for a caller that lends them.
    pub fn searched_in<'a>(self, rows: &'a Rows, n: usize) -> Searched
        ensures { result ≡ searched_first self (rows_in rows.now) (min n row_count) }
    {
        if Question::LINES < self.k {
            return Searched {
                steps: 0,
                question: self,
            };
        }
        let list = gathered(self.rule, self.k, rows, n);
        self.holding(list).ended()
    }

    // Where the search that found this list ends: a full list's last score decides which cells were taken.
    fn ended(self) -> Searched
        ensures { result ≡ ended_of self }
    {
        let bar = self.list().bar(self.k);
        if bar.full {
            let reach = self.rule.reach(bar.score);
            return Searched {
                steps: reach.cells,
                question: self.with_next(reach.next),
            };
        }
        Searched {
            steps: self.rule.most_steps(),
            question: self.with_next(Grid::CELLS),
        }
    }

    // The steps that the search has taken.
    pub fn steps(self) -> u16
        ensures { result ≡ steps_taken self }
    {
        self.rule.steps_to(self.next)
    }

    // The search has taken this cell.
    pub fn is_marked(self, cell: u8) -> bool
        ensures { result ≡ is_marked self cell }
    {
        self.rule.cell_counts(cell) && self.is_past(cell)
    }

    // The search has taken this cell, if it can be taken: so it is for a report that counts.
    #[tactic(auto, unfolding(crate::specs::Lines::is_past))]
    pub fn is_past(self, cell: u8) -> bool
        ensures { result ≡ is_past self cell }
    {
        !self.rule.in_order(self.next) || self.rule.before(cell, self.next as u8)
    }

    // Of each cell, whether the search has taken it.
    pub fn marks(self) -> [bool; Question::MARKS]
        ensures { result ≡ marks_of self }
    {
        let mut marks = [false; Question::MARKS];
        for cell in 0..Question::MARKS {
            marks[cell] = self.is_marked(cell as u8);
        }
        marks
    }

    // Every stored number is in its range, and the lines are reports that the window holds and that count, with their
    // scores, strictly falling in rank. Of the window itself `Window::fit` speaks.
    #[tactic(auto, unfolding(crate::specs::Calls::fit_question))]
    pub fn fit(self, window: Window) -> bool
        ensures { result ≡ fit_question window self }
    {
        self.ranges_fit(window.counts.held)
            && self.lines_held(window)
            && self.list().falls(self.rule)
            && self.rest_blank()
    }

    // The next cell is marked, and its reports join the list. Refused 24 where the window or the question is unfit, 25
    // where the search has ended.
    #[tactic(auto, unfolding(crate::specs::Calls::step_call))]
    pub fn step(self, window: Window) -> Result<Question, Refusal>
        ensures { result ≡ answered (step_call window self) }
    {
        if !(window.fit() && self.fit(window)) {
            return Err(Refusal::Unfit);
        }
        if self.finished() {
            return Err(Refusal::SearchFinished);
        }
        Ok(self.stepped(window))
    }

    // The search anew: no lines, no marks. Refused 24 where the window or the question is unfit, and so it is while its
    // search has not ended.
    #[tactic(auto, unfolding(crate::specs::Calls::begin_call))]
    pub fn begin(self, window: Window) -> Result<Question, Refusal>
        ensures { result ≡ answered (begin_call window self) }
    {
        if window.fit() && self.fit(window) && self.finished() {
            Ok(self.begun())
        } else {
            Err(Refusal::Unfit)
        }
    }

    // k, the rule, the next cell and the list's length are in their ranges.
    #[tactic(auto, unfolding(crate::specs::Calls::ranges_fit))]
    fn ranges_fit(self, held: u16) -> bool
        ensures { result ≡ ranges_fit self held }
    {
        1 <= self.k
            && self.k <= Question::LINES
            && self.rule.fit()
            && self.next_fits()
            && self.len <= self.k
            && u16::from(self.len) <= held
    }

    // The next cell is one that can be taken, or CELLS.
    #[tactic(auto, unfolding(crate::specs::Calls::next_fits))]
    fn next_fits(self) -> bool
        ensures { result ≡ next_fits self.rule self.next }
    {
        self.next == Grid::CELLS || self.rule.in_order(self.next)
    }

    // Every line names a report that the window holds and that counts, with its score.
    fn lines_held(self, window: Window) -> bool
        ensures { result ≡ all_of (held_as window self.rule) (lines self) }
    {
        for i in 0..self.list().line_count() {
            if !held_as(window, self.rule, self.names[i], self.scores[i]) {
                return false;
            }
        }
        true
    }

    // The places past the list's end are 0.
    pub fn rest_blank(self) -> bool
        ensures { result ≡ all_of blank (drop self.len (lines_of self.names self.scores)) }
    {
        self.list().rest_blank()
    }
}

// The window holds the report of that name, which has its edition too, and it counts, with that score.
#[tactic(auto, unfolding(crate::specs::Calls::held_as))]
fn held_as(window: Window, rule: Rule, name: u32, score: i32) -> bool
    ensures { result ≡ held_as window rule (record { name = name; score = score }) }
{
    let number = Name::number(name);
    if !holds_number(window.counts, number) {
        return false;
    }
    let row = (number - 1) % u32::from(window.counts.size);
    let held = window.rows.row(row as usize);
    name == held.name && rule.score(held.values()) == Some(score)
}

// A window of these counts holds the report of that number.
#[tactic(auto, unfolding(crate::specs::Calls::holds_number))]
pub fn holds_number(counts: Counts, number: u32) -> bool
    ensures { result ≡ holds_number counts number }
{
    Window::SMALLEST <= counts.size
        && counts.size <= Window::LARGEST
        && 1 <= number
        && number <= counts.entered
        && u64::from(counts.entered) < u64::from(number) + u64::from(counts.held)
}
