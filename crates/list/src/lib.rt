// A list in its two arrays, the reports' names and their scores, best first, and the pass over a window's rows that fills
// one. A length over the room counts as the room.
#![tactic(auto)]

ghost use Rattle.std.specs.Prelude.{◌≡◌, [], min, ◌≤◌, ◌<◌, take, drop, pos};
ghost use Rattle.search.specs.Best.{best, placed};
ghost use Rattle.ranking.specs.Standing.{above, top};
ghost use Rattle.window.specs.Rows.{row_count, standing};
ghost use Rattle.list.specs.Lines.{most_lines, lines_of, lines_in, columns_of, all_of, falls, blank, numbers_in, editions_in};
ghost use Rattle.list.specs.Bars.{bar_at, bar_of};
ghost use Rattle.list.specs.Rows.{rows_in};
ghost use Rattle.list.specs.Inner.{Roomy, rank_in, new_in, slid, Placing, least_at, turns, admits, wiped, Gathered};

use ranking::Rule;
use values::Name;
use window::{Rows, Window};

// The first `len` places are its lines. In a list that is well stored the others are 0.
#[derive(Clone, Copy)]
pub struct Lines {
    pub names: [u32; Lines::MOST],
    pub scores: [i32; Lines::MOST],
    pub len: u8,
}

// What an entry has to rank above to change a list that is full: its last line.
// Stays: an Option would lose the last line's name and score where the list isn't full, which `Lines::bar` (`bar_of`) answers too.
#[derive(Clone, Copy)]
pub struct Bar {
    pub full: bool,
    pub name: u32,
    pub score: i32,
}

// How many lines a pass over rows has left, and how many rows it took.
#[derive(Clone, Copy)]
struct Passed {
    len: usize,
    rows: usize,
}

impl Lines {
    // How many lines a list has room for.
    pub const MOST: usize = 16;

    // No lines.
    pub fn none() -> Lines
        ensures { result ≡ columns_of [] }
    {
        let names = [0u32; Lines::MOST];
        let scores = [0i32; Lines::MOST];
        Lines {
            names,
            scores,
            len: 0,
        }
    }

    // How many lines there are.
    pub fn line_count(self) -> usize
        ensures { result ≡ min self.len most_lines }
    {
        (self.len as usize).min(Lines::MOST)
    }

    // The first m lines.
    pub fn first_lines(self, m: usize) -> Lines
        ensures { result ≡ columns_of (take m (lines_in self)) }
    {
        let n = m.min(self.line_count());
        let mut names = self.names;
        let mut scores = self.scores;
        wipe(&mut names, &mut scores, n);
        let len = n as u8;
        Lines { names, scores, len }
    }

    // One entry put in its rank among the lines, once, of which at most `most` are kept.
    pub fn placed(self, rule: Rule, most: usize, name: u32, score: i32) -> Lines
        ensures { result ≡ columns_of (take (min most most_lines) (placed (above rule) (record { name = name; score = score }) (lines_in self))) }
    {
        let n = self.line_count();
        let mut names = self.names;
        let mut scores = self.scores;
        let k = most.min(Lines::MOST);
        let m = put_in(rule, &mut names, &mut scores, n, k, name, score);
        wipe(&mut names, &mut scores, m);
        let len = m as u8;
        Lines { names, scores, len }
    }

    // The best k of the lines.
    pub fn best(self, rule: Rule, k: usize) -> Lines
        ensures { result ≡ columns_of (best (above rule) (min k most_lines) (lines_in self)) }
    {
        let mut list = Lines::none();
        for i in 0..self.line_count() {
            list = list.placed(rule, k, self.names[i], self.scores[i]);
        }
        list
    }

    // Each line ranks above the next.
    pub fn falls(self, rule: Rule) -> bool
        ensures { result ≡ falls (above rule) (lines_in self) }
    {
        for next in 1..self.line_count() {
            let i = next - 1;
            if !rule.above(
                self.names[i],
                self.scores[i],
                self.names[next],
                self.scores[next],
            ) {
                return false;
            }
        }
        true
    }

    // The places past the list's end are 0.
    pub fn rest_blank(self) -> bool
        ensures { result ≡ all_of blank (drop self.len (lines_of self.names self.scores)) }
    {
        for i in self.line_count()..Lines::MOST {
            if self.names[i] != 0 || self.scores[i] != 0 {
                return false;
            }
        }
        true
    }

    // The bar of a list for k lines; a list with no line has none.
    pub fn bar(self, k: u8) -> Bar
        ensures { result ≡ bar_of self k }
    {
        let n = self.line_count();
        let full = self.len == k;
        bar_in(&self.names, &self.scores, n, full)
    }
}

impl Bar {
    // No report with a lower score passes; most fail by that alone.
    #[tactic(auto, unfolding(crate::specs::Inner::least_at))]
    fn least(self) -> i32
        ensures { result ≡ least_at self }
    {
        if self.full { self.score } else { i32::MIN }
    }

    // A full list's last line has that score, and of equal ones the newer goes first.
    #[tactic(auto, unfolding(crate::specs::Inner::turns))]
    fn turns(self, rule: Rule, score: i32) -> bool
        ensures { result ≡ turns rule self score }
    {
        score == self.score && self.full && rule.later_first()
    }

    // A report passes: the number in its name isn't 0, and the list isn't full or it ranks above the last line.
    #[tactic(auto, unfolding(crate::specs::Inner::admits))]
    fn admits(self, rule: Rule, name: u32, score: i32) -> bool
        ensures { result ≡ admits (above rule) self (record { name = name; score = score }) }
    {
        Name::number(name) != 0 && (!self.full || rule.above(name, score, self.name, self.score))
    }
}

// The best k of the reports in the first `n` rows of a window. A report that doesn't count, or doesn't pass the bar,
// changes nothing.
pub fn gathered<'a>(rule: Rule, k: u8, rows: &'a Rows, n: usize) -> Lines
    ensures { result ≡ columns_of (top rule (min k most_lines) (standing (rows_in rows.now) (min n row_count))) }
{
    let most = (k as usize).min(Lines::MOST);
    let end = n.min(Window::ROWS);
    let mut found = [0u32; Lines::MOST];
    let mut by = [0i32; Lines::MOST];
    let up = upward(rule, most, rows, end, &mut found, &mut by);
    let mut len = up.len;
    if up.rows < end {
        len = downward(rule, most, rows, up.rows, end, &mut found, &mut by, len);
    }
    let count = len as u8;
    Lines {
        names: found,
        scores: by,
        len: count,
    }
}

// The best of the rows from the first on, up to one whose report would displace a line of its own score, which isn't
// taken: where the newer of equal scores goes first, the rows from there on displace less if they are read from the last
// down. Where the older does, all rows are taken.
fn upward<'a, 'b>(
    rule: Rule,
    most: usize,
    rows: &'a Rows,
    end: usize,
    found: &'b mut [u32; Lines::MOST],
    by: &'b mut [i32; Lines::MOST],
) -> Passed
    requires { (most ≤ most_lines) × (end ≤ row_count) × Gathered rule most [] found.old by.old 0 }
    ensures { (result.rows ≤ end)
        × Gathered rule most (standing (rows_in rows.now) result.rows) found.new by.new result.len }
{
    let mut len: usize = 0;
    let mut bar = bar_in(found, by, len, len == most);
    let mut least = bar.least();
    for row in 0..end {
        let loss = rows.losses[row];
        let shake = rows.shakes[row];
        let name = rows.names[row];
        let Some(score) = rule.score_from(loss, shake, name, least) else {
            continue;
        };
        if !bar.admits(rule, name, score) {
            continue;
        }
        if bar.turns(rule, score) {
            return Passed { len, rows: row };
        }
        len = put_in(rule, found, by, len, most, name, score);
        bar = bar_in(found, by, len, len == most);
        least = bar.least();
    }
    Passed { len, rows: end }
}

// The best of the first `low` rows, which the arrays have, and of those from there to `high`, read from the last down: how
// many lines there are.
fn downward<'a, 'b>(
    rule: Rule,
    most: usize,
    rows: &'a Rows,
    low: usize,
    high: usize,
    found: &'b mut [u32; Lines::MOST],
    by: &'b mut [i32; Lines::MOST],
    had: usize,
) -> usize
    requires { (most ≤ most_lines) × (low ≤ high) × (high ≤ row_count)
        × Gathered rule most (standing (rows_in rows.now) low) found.old by.old had }
    ensures { Gathered rule most (standing (rows_in rows.now) high) found.new by.new result }
{
    let mut len = had;
    let mut bar = bar_in(found, by, len, len == most);
    let mut least = bar.least();
    for row in (low..high).rev() {
        let loss = rows.losses[row];
        let shake = rows.shakes[row];
        let name = rows.names[row];
        let Some(score) = rule.score_from(loss, shake, name, least) else {
            continue;
        };
        if !bar.admits(rule, name, score) {
            continue;
        }
        len = put_in(rule, found, by, len, most, name, score);
        bar = bar_in(found, by, len, len == most);
        least = bar.least();
    }
    len
}

// The numbers in the names of a list.
pub fn numbers_in(names: [u32; Lines::MOST]) -> [u32; Lines::MOST]
    ensures { result ≡ numbers_in names }
{
    let mut numbers = [0u32; Lines::MOST];
    for i in 0..Lines::MOST {
        numbers[i] = Name::number(names[i]);
    }
    numbers
}

// And their editions, as numbers: 0 for the first, one more than the heat for the second.
pub fn editions_in(names: [u32; Lines::MOST]) -> [u16; Lines::MOST]
    ensures { result ≡ editions_in names }
{
    let mut editions = [0u16; Lines::MOST];
    for i in 0..Lines::MOST {
        editions[i] = (names[i] % Name::EDITIONS) as u16;
    }
    editions
}

// The bar of the first `len` lines of two arrays, where it is told whether they are a full list.
fn bar_in<'a>(
    names: &'a [u32; Lines::MOST],
    scores: &'a [i32; Lines::MOST],
    len: usize,
    full: bool,
) -> Bar
    requires { len ≤ most_lines }
    ensures { result ≡ bar_at names.now scores.now len full }
{
    if len == 0 {
        return Bar {
            full: false,
            name: 0,
            score: 0,
        };
    }
    let last = len - 1;
    Bar {
        full,
        name: names[last],
        score: scores[last],
    }
}

// 0 in the places of two arrays from one on.
fn wipe<'a>(names: &'a mut [u32; Lines::MOST], scores: &'a mut [i32; Lines::MOST], from: usize)
    requires { (from ≤ most_lines) × Roomy names.old scores.old }
    ensures { (names.new ≡ wiped from 0 names.old) × (scores.new ≡ wiped from (pos 0) scores.old) }
{
    names[from..].fill(0);
    scores[from..].fill(0);
}

// One entry put in its rank among the first `len` lines of two arrays, once, of which at most `most` are kept: their
// number then. The lines past them stay. It is kept out of the loops over rows, which it makes too large for the compiler to lay out by the rule.
#[inline(never)]
fn put_in<'a>(
    rule: Rule,
    names: &'a mut [u32; Lines::MOST],
    scores: &'a mut [i32; Lines::MOST],
    len: usize,
    most: usize,
    name: u32,
    score: i32,
) -> usize
    requires { (len ≤ most_lines) × (most ≤ most_lines) × Roomy names.old scores.old }
    ensures { Placing (above rule) (record { name = name; score = score }) len most (lines_of names.old scores.old) (lines_of names.new scores.new) result
        × Roomy names.new scores.new }
{
    let at = rank_in(rule, names, scores, len, name, score);
    if most <= at {
        return most;
    }
    if !new_in(rule, names, scores, len, at, name, score) {
        return len.min(most);
    }
    let last = len.min(most - 1);
    slide(names, scores, at, last, name, score);
    last + 1
}

// How many of the first `len` lines of two arrays rank above an entry, before the first that doesn't.
fn rank_in<'a>(
    rule: Rule,
    names: &'a [u32; Lines::MOST],
    scores: &'a [i32; Lines::MOST],
    len: usize,
    name: u32,
    score: i32,
) -> usize
    requires { (len ≤ most_lines) × Roomy names.now scores.now }
    ensures { result ≡ rank_in (above rule) (record { name = name; score = score }) (take len (lines_of names.now scores.now)) }
{
    for i in 0..len {
        if !rule.above(names[i], scores[i], name, score) {
            return i;
        }
    }
    len
}

// The line at an entry's rank is another.
fn new_in<'a>(
    rule: Rule,
    names: &'a [u32; Lines::MOST],
    scores: &'a [i32; Lines::MOST],
    len: usize,
    at: usize,
    name: u32,
    score: i32,
) -> bool
    requires { (len ≤ most_lines) × Roomy names.now scores.now
        × (at ≡ rank_in (above rule) (record { name = name; score = score }) (take len (lines_of names.now scores.now))) }
    ensures { result ≡ new_in (above rule) (record { name = name; score = score }) (take len (lines_of names.now scores.now)) }
{
    len <= at || rule.above(name, score, names[at], scores[at])
}

// An entry put at a place, and the lines from there to the last one moved one place back; the last one goes.
fn slide<'a>(
    names: &'a mut [u32; Lines::MOST],
    scores: &'a mut [i32; Lines::MOST],
    at: usize,
    last: usize,
    name: u32,
    score: i32,
)
    requires { (at ≤ last) × (last < most_lines) × Roomy names.old scores.old }
    ensures { (names.new ≡ slid at last name names.old)
        × (scores.new ≡ slid at last score scores.old) }
{
    for i in (at..last).rev() {
        names[i + 1] = names[i];
        scores[i + 1] = scores[i];
    }
    names[at] = name;
    scores[at] = score;
}
