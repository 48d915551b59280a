// What setting, removing, reading and entering do to one slot: a standing question with its list, or none.
#![tactic(auto)]

ghost use Rattle.std.specs.Prelude.{◌≡◌, ◌&&◌, min};
ghost use Rattle.window.specs.Rows.{row_count, report_at, standing};
ghost use Rattle.list.specs.Lines.{most_lines};
ghost use Rattle.question.specs.Lines.{is_past};
ghost use Rattle.list.specs.Rows.{rows_in};
ghost use Rattle.refusal.specs.Answers.{answered};
ghost use Rattle.slot.specs.Asking.{ask_refusal, set_in, empty_refusal, emptied, read_in};
ghost use Rattle.slot.specs.Turn.{place_on, listed, lists, turn};
ghost use Rattle.slot.specs.Gauges.{least_of, last_name};
ghost use Rattle.slot.specs.Fitness.{is_empty, slot_fit};
ghost use Rattle.slot.specs.Answers.{seated_answer, shown_answer, turned_answer};

mod gauge;

pub use gauge::Gauge;
use list::{Lines, editions_in, numbers_in};
use question::{Question, Searched};
use ranking::{Grid, Rule};
use refusal::Refusal;
use values::Name;
use window::{Row, Rows, Window};

// A list: its first `len` lines, and 0 past them. Of each its report's number and score, and the heat: 0 for a report of the
// first edition, one more than its heat for one of the second.
#[derive(Clone, Copy)]
pub struct Shown {
    pub len: u8,
    pub numbers: [u32; Lines::MOST],
    pub scores: [i32; Lines::MOST],
    pub editions: [u16; Lines::MOST],
}

// What a report's entry leaves of a question: the steps of its search, if it was searched, and what the slot holds then.
#[derive(Clone, Copy)]
pub struct Turned {
    pub steps: Option<u16>,
    pub question: Question,
}

// Sets a question in a slot that holds this one, and searches it over the rows that are lent. Refused 14, 15, 30, 33, 16.
pub fn set_in<'a>(
    question: Question,
    k: u8,
    rule: Rule,
    rows: &'a Rows,
) -> Result<Searched, Refusal>
    ensures { result ≡ seated_answer (set_in question k rule (standing (rows_in rows.now) row_count)) }
{
    ask_refusal(question.k, k, rule)?;
    let mut fresh = Question::fresh();
    fresh.k = k;
    fresh.rule = rule;
    Ok(fresh.searched_in(rows, Window::ROWS))
}

// Why a question is not set in a slot that holds one of that k, or 0.
#[tactic(auto, unfolding(refusal::specs::Answers::refusal_of))]
fn ask_refusal(held: u8, k: u8, rule: Rule) -> Result<(), Refusal>
    ensures { result ≡ answered (ask_refusal held k rule) tt }
{
    if k < 1 {
        return Err(Refusal::LinesOutOfRange);
    }
    if Question::LINES < k {
        return Err(Refusal::LinesOutOfRange);
    }
    if !rule.weights_fit() {
        return Err(Refusal::WeightOutOfRange);
    }
    if !rule.ranges_proper() {
        return Err(Refusal::RangeNotProper);
    }
    if !rule.ties_known() {
        return Err(Refusal::TieRuleUnknown);
    }
    if held == 0 {
        Ok(())
    } else {
        Err(Refusal::SlotInUse)
    }
}

// Why a slot that holds a question of that k, or 0, is not removed or read.
#[tactic(auto, unfolding(refusal::specs::Answers::refusal_of))]
pub fn empty_refusal(held: u8) -> Result<(), Refusal>
    ensures { result ≡ answered (empty_refusal held) tt }
{
    if held == 0 {
        Err(Refusal::SlotEmpty)
    } else {
        Ok(())
    }
}

// What a slot holds that is removed; one that is empty stays.
#[tactic(auto, unfolding(crate::specs::Asking::emptied))]
pub fn emptied(question: Question) -> Question
    ensures { result ≡ emptied question }
{
    if question.k == 0 {
        question
    } else {
        Question::fresh()
    }
}

// The list of a slot. Refused 17.
#[tactic(auto, unfolding(crate::specs::Asking::read_in, refusal::specs::Answers::refusal_of))]
pub fn read_in(question: Question) -> Result<Shown, Refusal>
    ensures { result ≡ shown_answer (read_in question) }
{
    if question.k == 0 {
        return Err(Refusal::SlotEmpty);
    }
    let names = question.names;
    let numbers = numbers_in(names);
    let scores = question.scores;
    let editions = editions_in(names);
    Ok(Shown {
        len: question.len,
        numbers,
        scores,
        editions,
    })
}

// A report enters: the question lists it if its list takes it, and is searched afresh if it lists one that has gone, over the
// first `n` of the rows that are lent. The numbers up to `gone` have gone. Of the loss and the shake the low 12 bits
// are looked at.
pub fn turn<'a>(question: Question, row: Row, gone: u32, rows: &'a Rows, n: usize) -> Turned
    ensures { result ≡ turned_answer (turn question (report_at row) gone
        (standing (rows_in rows.now) (min n row_count))) }
{
    let with = listed(question, row);
    if !lists(with, gone) {
        return Turned {
            steps: None,
            question: with,
        };
    }
    let found = with.searched_in(rows, n);
    let left = found.question;
    Turned {
        steps: Some(found.steps),
        question: left,
    }
}

// The question with a report more, if its list takes it.
fn listed(question: Question, row: Row) -> Question
    ensures { result ≡ listed question (report_at row) }
{
    let values = row.values();
    match question.rule.score(values) {
        Some(score) => {
            if joins(question, score, Grid::cell(values)) {
                question.cut_with(row.name, score)
            } else {
                question
            }
        }
        None => question,
    }
}

// The list has a place for the score, and the search has come past the cell: for a report that counts, it is marked.
fn joins(question: Question, score: i32, cell: u8) -> bool
    ensures { result ≡ (is_past question cell && place_on question score) }
{
    has_place(question, score) && question.is_past(cell)
}

// The list has a place for a report that enters now with this score.
fn has_place(question: Question, score: i32) -> bool
    ensures { result ≡ place_on question score }
{
    let rule = question.rule;
    rule.has_place(question.k, question.len, least(question), score)
}

// The list's last score; the largest there is, where it has no line.
fn least(question: Question) -> i32
    ensures { result ≡ least_of question }
{
    let scores = question.scores;
    match lines_in(question.len).checked_sub(1) {
        Some(last) => scores[last],
        None => i32::MAX,
    }
}

// How many lines a list of that length has.
fn lines_in(len: u8) -> usize
    ensures { result ≡ min len most_lines }
{
    usize::from(len).min(Lines::MOST)
}

// The greatest name of a report of that number: names up to it are those of numbers up to that one.
fn last_name(number: u32) -> u64
    ensures { result ≡ last_name number }
{
    u64::from(Name::EDITIONS) * u64::from(number) + 4096
}

// The question lists a report of a number up to that one.
fn lists(question: Question, gone: u32) -> bool
    ensures { result ≡ lists question gone }
{
    let names = question.names;
    let limit = last_name(gone);
    for name in &names[..lines_in(question.len)] {
        if u64::from(*name) <= limit {
            return true;
        }
    }
    false
}

// An empty slot, or a fit question whose search has ended.
#[tactic(auto, unfolding(crate::specs::Fitness::slot_fit))]
pub fn fit(question: Question, window: Window) -> bool
    ensures { result ≡ slot_fit window question }
{
    is_empty(question) || (question.fit(window) && question.finished())
}

// k is 0, and so is everything else.
// Stays: tried `question == Question::fresh()`; the check didn't find that the arrays' comparison is `rest_blank`'s.
#[tactic(auto, unfolding(crate::specs::Fitness::is_empty))]
fn is_empty(question: Question) -> bool
    ensures { result ≡ is_empty question }
{
    question.k == 0
        && question.rule.is_none()
        && question.len == 0
        && question.next == 0
        && question.rest_blank()
}
