// The held reports: the latest N that were entered, in a ring of rows.
#![tactic(auto)]

ghost use Rattle.std.specs.Prelude.{◌≡◌, true, min, ◌+◌, ◌-◌, ◌%◌, ◌<◌, ◌≤◌};
ghost use Rattle.window.specs.Rows.{row_count, report_limit, no_rows, row_in, rows_with, fresh_window, fit_window, added, sized, empty, row_of, place_for, due, number_at, values_at, no_values, holds, rows_fit, counts_fit};

use refusal::Refusal;
use values::{Edition, Name, Values};

// How many rows are used, N; how many reports were entered, which is the last one's number; and how many of the latest are
// held.
#[derive(Clone, Copy)]
pub struct Counts {
    pub size: u16,
    pub entered: u32,
    pub held: u16,
}

// The rows in three columns: the losses, the shakes and the names of the reports. A row that holds nothing is 0.
#[derive(Clone, Copy)]
pub struct Rows {
    pub losses: [u16; Window::ROWS],
    pub shakes: [u16; Window::ROWS],
    pub names: [u32; Window::ROWS],
}

// Report m lies in row (m - 1) mod N.
#[derive(Clone, Copy)]
pub struct Window {
    pub rows: Rows,
    pub counts: Counts,
}

// A report as its row has it: the name has its number and its edition.
#[derive(Clone, Copy)]
pub struct Row {
    pub loss: u16,
    pub shake: u16,
    pub name: u32,
}

// Where the next report goes: its row, and how many are held with it.
#[derive(Clone, Copy)]
pub struct Place {
    pub row: u16,
    pub held: u16,
}

impl Rows {
    // Rows that hold nothing.
    pub fn none() -> Rows
        ensures { result ≡ no_rows }
    {
        Rows {
            losses: [0; Window::ROWS],
            shakes: [0; Window::ROWS],
            names: [0; Window::ROWS],
        }
    }

    // The row at a place; past the last one, a row that holds nothing.
    pub fn row(&self, at: usize) -> Row
        ensures { result ≡ row_in self.now at }
    {
        if at < Window::ROWS {
            Row {
                loss: self.losses[at],
                shake: self.shakes[at],
                name: self.names[at],
            }
        } else {
            Row {
                loss: 0,
                shake: 0,
                name: 0,
            }
        }
    }

    // Stores a row at a place, if there is one.
    pub fn put(&mut self, at: usize, row: Row)
        ensures { self.new ≡ rows_with self.old at row }
    {
        if at < Window::ROWS {
            self.losses[at] = row.loss;
            self.shakes[at] = row.shake;
            self.names[at] = row.name;
        }
    }
}

impl Window {
    pub const SMALLEST: u16 = 1;

    pub const LARGEST: u16 = 1024;

    // The rows of each array, used or not.
    pub const ROWS: usize = 1024;

    // No more reports are entered than this.
    pub const REPORTS: u32 = 1000000;

    // A window of n rows with nothing entered. Refused 18.
    #[tactic(auto, unfolding(crate::specs::Rows::fresh_window))]
    pub fn fresh(n: u16) -> Result<Window, Refusal>
        ensures { result ≡ fresh_window n }
    {
        if sized(n) {
            Ok(empty(n))
        } else {
            Err(Refusal::WindowOutOfRange)
        }
    }

    // No window yet: one of no rows, which takes no report.
    pub fn none() -> Window
        ensures { result ≡ empty 0 }
    {
        empty(0)
    }

    // Every stored number is in its range, and the held numbers are the latest ones without a gap.
    #[tactic(auto, unfolding(crate::specs::Rows::fit_window))]
    pub fn fit(self) -> bool
        ensures { result ≡ fit_window self }
    {
        counts_fit(self.counts) && rows_fit(self)
    }

    // Where the next report goes in a window of these counts; 0 where there is no such window.
    pub fn place(counts: Counts) -> Place
        ensures { result ≡ place_for counts }
    {
        let size = counts.size;
        if sized(size) {
            return Place {
                row: (counts.entered % (size as u32)) as u16,
                held: capped(counts.held, size),
            };
        }
        Place { row: 0, held: 0 }
    }

    // The window with one report more; where N are held, the oldest gives it its row. A window that can take none is
    // handed back.
    #[tactic(auto, unfolding(crate::specs::Rows::added))]
    pub fn added(self, values: Values) -> Window
        ensures { result ≡ added self values }
    {
        let counts = self.counts;
        if sized(counts.size) && counts.entered < Window::REPORTS {
            grown(self, values)
        } else {
            self
        }
    }
}

impl Row {
    // The values of the report.
    pub fn values(self) -> Values
        ensures { result ≡ values_at self }
    {
        Values {
            loss: self.loss,
            shake: self.shake,
            edition: Name::edition(self.name),
        }
    }
}

// A window can have n rows.
fn sized(n: u16) -> bool
    ensures { result ≡ sized n }
{
    Window::SMALLEST <= n && n <= Window::LARGEST
}

// A window of that size whose rows are all 0.
fn empty(size: u16) -> Window
    ensures { result ≡ empty size }
{
    Window {
        rows: Rows::none(),
        counts: Counts {
            size,
            entered: 0,
            held: 0,
        },
    }
}

// The next report stored in its row.
#[tactic(auto, unfolding(crate::specs::Rows::added))]
fn grown(w: Window, values: Values) -> Window
    requires { (sized w.counts.size ≡ true) × (w.counts.entered < report_limit) }
    ensures { result ≡ added w values }
{
    let counts = w.counts;
    let size = counts.size;
    let number = counts.entered + 1;
    let row = Row {
        loss: values.loss,
        shake: values.shake,
        name: Name::of(number, values.edition),
    };
    let mut next = w;
    next.rows.put(row_of(size, number) as usize, row);
    next.counts = Counts {
        size,
        entered: number,
        held: capped(counts.held, size),
    };
    next
}

// The row of a report's number.
fn row_of(size: u16, number: u32) -> u16
    requires { (1 ≤ size) × (size ≤ row_count) × (1 ≤ number) }
    ensures { result ≡ row_of size number }
{
    ((number - 1) % (size as u32)) as u16
}

// One more than are held, and at most the size.
fn capped(held: u16, size: u16) -> u16
    ensures { result ≡ min size (held + 1) }
{
    held.saturating_add(1).min(size)
}

// The counts are in their ranges.
fn counts_fit(counts: Counts) -> bool
    ensures { result ≡ counts_fit counts }
{
    sized(counts.size)
        && counts.entered <= Window::REPORTS
        && counts.held <= counts.size
        && u32::from(counts.held) <= counts.entered
}

// Every row holds what is due.
fn rows_fit(w: Window) -> bool
    requires { counts_fit w.counts ≡ true }
    ensures { result ≡ rows_fit w row_count }
{
    let counts = w.counts;
    let last = row_of(counts.size, counts.entered + u32::from(counts.size));
    for row in 0..Window::ROWS {
        if !holds(due(counts, last, row as u16), w.rows.row(row)) {
            return false;
        }
    }
    true
}

// The number that a row must hold, where `last` is the row of the latest report.
fn due(counts: Counts, last: u16, row: u16) -> u32
    requires { (1 ≤ counts.size) × (counts.size ≤ row_count) × (counts.held ≤ counts.entered)
        × (last ≡ row_of counts.size (counts.entered + counts.size)) }
    ensures { result ≡ due counts row }
{
    if counts.size <= row {
        return 0;
    }
    let behind = steps_back(counts.size, last, row);
    if behind < counts.held {
        counts.entered - u32::from(behind)
    } else {
        0
    }
}

// How many rows the one lies behind the other, around the ring.
fn steps_back(size: u16, last: u16, row: u16) -> u16
    requires { (last < size) × (row < size) × (size ≤ row_count) }
    ensures { result ≡ (last + size - row) % size }
{
    if row <= last {
        last - row
    } else {
        last + size - row
    }
}

// A row holds the number that is due, with values in their range; a row that holds nothing is 0.
fn holds(due: u32, row: Row) -> bool
    ensures { result ≡ holds due (number_at row) (values_at row) }
{
    let values = row.values();
    Name::number(row.name) == due
        && if due == 0 {
            no_values(values)
        } else {
            values.in_range()
        }
}

// The values of a row that holds nothing.
fn no_values(values: Values) -> bool
    ensures { result ≡ no_values values }
{
    values.loss == 0 && values.shake == 0 && matches!(values.edition, Edition::First)
}
