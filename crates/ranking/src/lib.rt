// A question's rule: its scores, the rank order, the grid and the order in which a search takes its cells.
#![tactic(auto)]

ghost use Rattle.std.specs.Prelude.{◌≡◌, true, IfSome, ◌&&◌, ◌+◌, ◌*◌, ◌-◌, ◌%◌, ◌<◌, ◌≤◌, min, pos, ◌*ℤ◌};
ghost use Rattle.laws.specs.Whole.{equal};
ghost use Rattle.values.specs.Range.{value_count, low_edition, low};
ghost use Rattle.ranking.specs.Cells.{columns, cell_count, inside, whole_ranges, rule_within, rule_of, tied_by, no_rule, is_no_range, no_weights, is_none, weight_fits, weights_fit, is_proper, ranges_proper, ties_known, fit_rule, heat_counts, counts, heat_of, weighed, sum, score, ScoreFits, from_least, values_named, cell, meets, cell_counts, nearest, corner, best_score, greater, before, in_order, place_of, cell_at, cell_after, most_steps, steps_to, reach_of};
ghost use Rattle.ranking.specs.Standing.{later_first, goes_first, above, passes, place_by, might_pass};
ghost use Rattle.ranking.specs.Inner.{leads, nearer, place_after, met, met_row, stripes_of, edge_of, FirstOf, loss_part, heat_part, row_part, key_of, hottest, pair_part, edition_by, Words, Across};

use values::{Edition, Name, Values};

// What a score is made with: a for loss, b for shake, c for heat.
#[derive(Clone, Copy, Default, PartialEq, Eq)]
pub struct Weights {
    pub loss: i16,
    pub shake: i16,
    pub heat: i16,
}

impl Weights {
    pub const SMALLEST: i16 = -1000;

    pub const LARGEST: i16 = 1000;

    // Values of at least that score, if they count; no others pass it, whatever the tie rule.
    #[tactic(auto, unfolding(crate::specs::Standing::might_pass))]
    pub fn might_pass(self, values: Values, score: i32) -> bool
        ensures { result ≡ might_pass self (low values) score }
    {
        score <= self.sum(values)
    }

    // The weighted sum of the values.
    fn sum(self, values: Values) -> i32
        ensures { result ≡ weighed self (low values) }
    {
        self.pair(values) + weighted_heat(self.heat, values.edition)
    }

    // The greatest sum of values with this loss and shake, whatever the heat.
    fn most(self, values: Values) -> i32
        ensures { (result ≡ weighed self (hottest self (low values))) × Words self }
    {
        self.pair(values) + best_heat(self.heat)
    }

    // What loss and shake count for.
    fn pair(self, values: Values) -> i32
        ensures { (result ≡ pair_part self (low values)) × Words self }
    {
        weighted(self.loss, values.loss) + weighted(self.shake, values.shake)
    }

    // The edition in a name; where heat has no weight it is all one, and the first.
    #[tactic(auto, unfolding(laws::specs::Whole::equal))]
    fn edition_in(self, name: u32) -> Edition
        ensures { result ≡ edition_by self name }
    {
        if self.heat == 0 {
            Edition::First
        } else {
            Name::edition(name)
        }
    }
}

// The values from one to another, both included.
#[derive(Clone, Copy, Default, PartialEq, Eq)]
pub struct Range {
    pub low: u16,
    pub high: u16,
}

// The losses and the shakes that count.
#[derive(Clone, Copy, Default, PartialEq, Eq)]
pub struct Ranges {
    pub loss: Range,
    pub shake: Range,
}

// All that a question goes by. The tie rule is NEWEST or FIRST_COME; any other is unfit, and ranks as FIRST_COME does.
#[derive(Clone, Copy, Default, PartialEq, Eq)]
pub struct Rule {
    pub weights: Weights,
    pub ranges: Ranges,
    pub ties: u8,
}

// How many of the cells that a search can take have a best possible score of at least some score, and which of the others it
// takes first; CELLS, where there is none.
#[derive(Clone, Copy)]
pub struct Reach {
    pub cells: u16,
    pub next: u16,
}

// What a look at some cells has found: how many reach the score, which of the others is taken first, and its best score.
#[derive(Clone, Copy)]
struct Sought {
    cells: u16,
    next: u16,
    best: i32,
}

// Columns or rows of the grid: from the first up to the end.
#[derive(Clone, Copy)]
struct Stripes {
    first: u16,
    end: u16,
}

impl Ranges {
    // Every value that a report can have.
    pub fn whole() -> Ranges
        ensures { result ≡ whole_ranges }
    {
        let whole = Range {
            low: 0,
            high: Values::LARGEST,
        };
        Ranges {
            loss: whole,
            shake: whole,
        }
    }
}

impl Range {
    // The value lies inside.
    fn has(self, value: u16) -> bool
        ensures { result ≡ inside self value }
    {
        (self.low..=self.high).contains(&value)
    }

    // In order, and with no end over the largest value.
    fn is_proper(self) -> bool
        ensures { result ≡ is_proper self }
    {
        self.low <= self.high && self.high <= Values::LARGEST
    }

    // Some value of that column or row lies inside.
    fn meets(self, index: u16) -> bool
        requires { index < columns }
        ensures { result ≡ meets self index }
    {
        let least = Grid::SIDE * index;
        self.low <= self.high && self.low <= least + (Grid::SIDE - 1) && least <= self.high
    }

    // The columns or rows that have a value inside.
    #[tactic(auto, unfolding(crate::specs::Inner::stripes_of))]
    fn stripes(self) -> Stripes
        ensures { result ≡ stripes_of self }
    {
        if self.high < self.low || Values::LARGEST < self.low {
            return Stripes { first: 0, end: 0 };
        }
        Stripes {
            first: self.low / Grid::SIDE,
            end: (self.high / Grid::SIDE).min(Grid::COLUMNS - 1) + 1,
        }
    }
}

impl Rule {
    // Stays: `ties` holds any byte, for a rule with another one is unfit (`ties_known`) and refused 33, a state that an enum of two would lack.
    // Of equal scores the newest report goes first.
    pub const NEWEST: u8 = 0;

    // Of equal scores the report that came first does.
    pub const FIRST_COME: u8 = 1;

    // A question about all values, with ties to the newest.
    pub fn of(weights: Weights) -> Rule
        ensures { result ≡ rule_of weights }
    {
        Rule::within(weights, Ranges::whole())
    }

    // A question about the values inside these ranges, with ties to the newest.
    pub fn within(weights: Weights, ranges: Ranges) -> Rule
        ensures { result ≡ rule_within weights ranges }
    {
        Rule {
            weights,
            ranges,
            ties: Rule::NEWEST,
        }
    }

    // The same question with that tie rule.
    pub fn tied(self, ties: u8) -> Rule
        ensures { result ≡ tied_by ties self }
    {
        Rule { ties, ..self }
    }

    // The rule of an empty slot: all 0.
    pub fn none() -> Rule
        ensures { result ≡ no_rule }
    {
        Rule::default()
    }

    // All of it is 0.
    #[tactic(auto, unfolding(crate::specs::Cells::is_none))]
    pub fn is_none(self) -> bool
        ensures { result ≡ is_none self }
    {
        self == Rule::none()
    }

    // Every number of it is in its range.
    #[tactic(auto, unfolding(crate::specs::Cells::fit_rule))]
    pub fn fit(self) -> bool
        ensures { result ≡ fit_rule self }
    {
        self.weights_fit() && self.ranges_proper() && self.ties_known()
    }

    // Each weight is in its range.
    #[tactic(auto, unfolding(crate::specs::Cells::weights_fit))]
    pub fn weights_fit(self) -> bool
        ensures { result ≡ weights_fit self }
    {
        let weights = self.weights;
        weight_fits(weights.loss) && weight_fits(weights.shake) && weight_fits(weights.heat)
    }

    // Both ranges are in order, with no end over the largest value.
    #[tactic(auto, unfolding(crate::specs::Cells::ranges_proper))]
    pub fn ranges_proper(self) -> bool
        ensures { result ≡ ranges_proper self }
    {
        let ranges = self.ranges;
        ranges.loss.is_proper() && ranges.shake.is_proper()
    }

    // The tie rule is one of the two.
    #[tactic(auto, unfolding(crate::specs::Cells::ties_known))]
    pub fn ties_known(self) -> bool
        ensures { result ≡ ties_known self }
    {
        self.ties <= Rule::FIRST_COME
    }

    // The score of some values, if they count; the low 12 bits of each are looked at.
    #[tactic(auto, unfolding(crate::specs::Cells::score))]
    pub fn score(self, values: Values) -> Option<i32>
        ensures { result ≡ score self (low values) }
    {
        self.counts(values).then(|| self.sum(values))
    }

    // The same of a report as its row has it, and none also where the score is below `least`. Most reports fail by loss and shake alone, so the
    // name isn't looked at before that.
    pub fn score_from(self, loss: u16, shake: u16, name: u32, least: i32) -> Option<i32>
        ensures { (result ≡ from_least least (score self (low (values_named loss shake name)))) × ScoreFits self (low (values_named loss shake name)) }
    {
        let weights = self.weights;
        let first = Values {
            loss,
            shake,
            edition: Edition::First,
        };
        if weights.most(first) < least {
            return None;
        }
        let values = Values {
            loss,
            shake,
            edition: weights.edition_in(name),
        };
        let sum = self.sum(values);
        if sum < least {
            return None;
        }
        if self.counts(values) {
            return Some(sum);
        }
        None
    }

    // Loss and shake lie inside their ranges, and there is a heat where it has a weight.
    #[tactic(auto, unfolding(crate::specs::Cells::counts))]
    fn counts(self, values: Values) -> bool
        ensures { result ≡ counts self (low values) }
    {
        let ranges = self.ranges;
        ranges.loss.has(values.loss % Values::COUNT)
            && ranges.shake.has(values.shake % Values::COUNT)
            && heat_counts(self.weights.heat, values.edition)
    }

    // The weighted sum of the values.
    fn sum(self, values: Values) -> i32
        ensures { result ≡ sum self (low values) }
    {
        self.weights.sum(values)
    }

    // Of equal scores the later report goes first.
    pub fn later_first(self) -> bool
        ensures { result ≡ later_first self }
    {
        self.ties == Rule::NEWEST
    }

    // Of two reports of equal scores the one of this name goes first.
    #[tactic(auto, unfolding(crate::specs::Inner::key_of, crate::specs::Standing::goes_first))]
    fn goes_first(self, name: u32, other: u32) -> bool
        ensures { result ≡ goes_first self name other }
    {
        self.key(other) < self.key(name)
    }

    // A number that is greater for the one of two names that goes first: to compare two of these takes no branch.
    #[tactic(auto, unfolding(crate::specs::Inner::key_of))]
    fn key(self, name: u32) -> u32
        ensures { result ≡ key_of self name }
    {
        if self.later_first() {
            name
        } else {
            u32::MAX - name
        }
    }

    // A report ranks above another (rule 6.3): by its score, and of equal ones by its number, which is in its name, as the
    // tie rule says.
    #[tactic(auto, unfolding(crate::specs::Standing::above))]
    pub fn above(self, name: u32, score: i32, other_name: u32, other_score: i32) -> bool
        ensures { result ≡ above self (record { name = name; score = score }) (record { name = other_name; score = other_score }) }
    {
        other_score < score || (other_score == score && self.goes_first(name, other_name))
    }

    // A report that enters now with this score ranks above one of that other score.
    #[tactic(auto, unfolding(crate::specs::Standing::passes))]
    pub fn passes(self, score: i32, other: i32) -> bool
        ensures { result ≡ passes self score other }
    {
        greater(score, other, self.later_first())
    }

    // A list for k of that many entries, the last of that score, has a place for a report that enters now with this score.
    // Of a list with no entry `last` counts for nothing.
    #[tactic(auto, unfolding(crate::specs::Standing::place_by))]
    pub fn has_place(self, k: u8, len: u8, last: i32, score: i32) -> bool
        ensures { result ≡ place_by self k len last score }
    {
        len < k || (len != 0 && self.passes(score, last))
    }

    // A cell's best possible score; of a cell with no value inside the ranges, that of its values nearest to them.
    #[tactic(auto, unfolding(crate::specs::Cells::best_score, crate::specs::Cells::sum, crate::specs::Inner::loss_part, crate::specs::Inner::row_part))]
    pub fn best_score(self, cell: u8) -> i32
        ensures { result ≡ best_score self cell }
    {
        let n = u16::from(cell);
        self.loss_part(n % Grid::COLUMNS) + self.row_part(n / Grid::COLUMNS)
    }

    // Some values of the cell count.
    #[tactic(auto, unfolding(crate::specs::Cells::cell_counts))]
    pub fn cell_counts(self, cell: u8) -> bool
        ensures { result ≡ cell_counts self cell }
    {
        let n = u16::from(cell);
        let ranges = self.ranges;
        ranges.loss.meets(n % Grid::COLUMNS) && ranges.shake.meets(n / Grid::COLUMNS)
    }

    // A search can take this cell; CELLS and more are none.
    #[tactic(auto, unfolding(crate::specs::Cells::in_order))]
    pub fn in_order(self, cell: u16) -> bool
        ensures { result ≡ in_order self cell }
    {
        cell < Grid::CELLS && self.cell_counts(cell as u8)
    }

    // A search takes the cell c before the cell d.
    #[tactic(auto, unfolding(crate::specs::Cells::before))]
    pub fn before(self, c: u8, d: u8) -> bool
        ensures { result ≡ before self c d }
    {
        greater(self.best_score(c), self.best_score(d), c < d)
    }

    // How many cells a search takes before this one.
    fn place_of(self, cell: u8) -> u16
        ensures { result ≡ place_of self cell }
    {
        let mut n: u16 = 0;
        for d in 0..Grid::CELLS {
            if self.comes_before(d as u8, cell) {
                n += 1;
            }
        }
        n
    }

    // A search takes the cell c, and does so before d.
    fn comes_before(self, c: u8, d: u8) -> bool
        ensures { result ≡ (cell_counts self c && before self c d) }
    {
        self.cell_counts(c) && self.before(c, d)
    }

    // How many cells a search can take.
    pub fn most_steps(self) -> u16
        ensures { result ≡ most_steps self }
    {
        let ranges = self.ranges;
        let columns = ranges.loss.stripes();
        let rows = ranges.shake.stripes();
        columns.width() * rows.width()
    }

    // The steps of a search that takes this cell next; all, where it can't be taken.
    #[tactic(auto, unfolding(crate::specs::Cells::steps_to))]
    pub fn steps_to(self, cell: u16) -> u16
        ensures { result ≡ steps_to self cell }
    {
        if self.in_order(cell) {
            return self.place_of(cell as u8);
        }
        self.most_steps()
    }

    // The cell that a search takes first; CELLS, where there is none.
    // Stays: an `Option<u8>` would be no plainer, since a question stores the next cell as a number, which a poke may make any `u16`, and each caller would turn it back.
    pub fn first_cell(self) -> u16
        ensures { result ≡ cell_at self 0 }
    {
        self.seek(Grid::CELLS)
    }

    // The cell that a search takes after this one; CELLS, where it is the last or can't be taken.
    #[tactic(auto, unfolding(crate::specs::Cells::cell_after))]
    pub fn next_cell(self, cell: u16) -> u16
        ensures { result ≡ cell_after self cell }
    {
        if self.in_order(cell) {
            return self.seek(cell);
        }
        Grid::CELLS
    }

    // How far a search goes whose list ends in that score.
    pub fn reach(self, score: i32) -> Reach
        ensures { result ≡ reach_of self score }
    {
        let across = self.across();
        let mut sought = Sought {
            cells: 0,
            next: Grid::CELLS,
            best: i32::MIN,
        };
        for row in 0..Grid::ROWS {
            sought = self.row_sought(across, sought, row, score);
        }
        Reach {
            cells: sought.cells,
            next: sought.next,
        }
    }

    // What the best loss of each column counts for.
    fn across(self) -> [i32; Grid::ACROSS]
        ensures { Across self result }
    {
        let mut parts = [0i32; Grid::ACROSS];
        for (column, part) in parts.iter_mut().enumerate() {
            *part = self.loss_part(column as u16);
        }
        parts
    }

    // What the best loss of a column counts for.
    #[tactic(auto, unfolding(crate::specs::Inner::loss_part))]
    fn loss_part(self, column: u16) -> i32
        requires { column < columns }
        ensures { (result ≡ loss_part self column) × Words self.weights }
    {
        let weights = self.weights;
        let ranges = self.ranges;
        weighted(weights.loss, corner(weights.loss, ranges.loss, column))
    }

    // What the best shake of a row and the best heat count for.
    #[tactic(auto, unfolding(crate::specs::Inner::row_part))]
    fn row_part(self, row: u16) -> i32
        requires { row < columns }
        ensures { result ≡ row_part self row }
    {
        let weights = self.weights;
        let ranges = self.ranges;
        weighted(weights.shake, corner(weights.shake, ranges.shake, row)) + best_heat(weights.heat)
    }

    // The cells of one row more. Where the one that is taken first is below the score, all are, and it alone matters.
    fn row_sought(self, across: [i32; Grid::ACROSS], sought: Sought, row: u16, score: i32) -> Sought
        requires { (row < columns) × (sought.cells ≤ columns * row) × Across self across }
        ensures { result ≡ met_row self score sought row columns }
    {
        if let Some(cell) = self.row_first(row) {
            let best = self.best_score(cell as u8);
            if best < score {
                return sought.met(cell, best, score);
            }
        }
        self.row_met(across, sought, row, score)
    }

    // The cell of a row that a search takes first, where it takes one of them.
    fn row_first(self, row: u16) -> Option<u16>
        requires { row < columns }
        ensures { IfSome result (FirstOf self row) }
    {
        let weights = self.weights;
        let ranges = self.ranges;
        let across = ranges.loss.stripes();
        if across.first < across.end && ranges.shake.meets(row) {
            return Some(Grid::COLUMNS * row + across.edge(weights.loss));
        }
        None
    }

    // The cells of a row, one by one.
    fn row_met(self, across: [i32; Grid::ACROSS], sought: Sought, row: u16, score: i32) -> Sought
        requires { (row < columns) × (sought.cells ≤ columns * row) × Across self across }
        ensures { result ≡ met_row self score sought row columns }
    {
        let ranges = self.ranges;
        if !ranges.shake.meets(row) {
            return sought;
        }
        let part = self.row_part(row);
        let stripes = ranges.loss.stripes();
        let mut found = sought;
        for column in stripes.first..stripes.end {
            let cell = Grid::COLUMNS * row + column;
            found = found.met(cell, across[column as usize] + part, score);
        }
        found
    }

    // The cell that is taken next after `from`, or first where `from` is no cell.
    fn seek(self, from: u16) -> u16
        requires { from < cell_count → cell_counts self from ≡ true }
        ensures { result ≡ cell_at self (place_after self from) }
    {
        let mut found = Grid::CELLS;
        for d in 0..Grid::CELLS {
            found = self.nearer(from, found, d);
        }
        found
    }

    // Of the cell found so far and d, the one that follows `from` sooner.
    fn nearer(self, from: u16, found: u16, d: u16) -> u16
        requires { d < cell_count }
        ensures { result ≡ nearer self from found d }
    {
        if self.cell_counts(d as u8) && self.leads(from, d) && self.leads(d, found) {
            d
        } else {
            found
        }
    }

    // c is taken before d, or one of them is no cell.
    fn leads(self, c: u16, d: u16) -> bool
        ensures { result ≡ leads self c d }
    {
        Grid::CELLS <= c || Grid::CELLS <= d || self.before(c as u8, d as u8)
    }
}

impl Stripes {
    // The one whose values count for most by that weight, or the first of several such.
    fn edge(self, weight: i16) -> u16
        requires { self.first < self.end }
        ensures { result ≡ edge_of weight self }
    {
        if 0 < weight { self.end - 1 } else { self.first }
    }

    // How many they are.
    fn width(self) -> u16
        ensures { result ≡ self.end - self.first }
    {
        self.end.saturating_sub(self.first)
    }
}

impl Sought {
    // One cell more, of a greater number than those before: it is below the score and taken sooner than the
    // others that are, or not, or it counts.
    #[tactic(auto, unfolding(crate::specs::Inner::met))]
    fn met(self, cell: u16, best: i32, score: i32) -> Sought
        requires { self.cells < cell_count }
        ensures { result ≡ met self cell best score }
    {
        if score <= best {
            return Sought {
                cells: self.cells + 1,
                ..self
            };
        }
        if self.best < best {
            return Sought {
                next: cell,
                best,
                ..self
            };
        }
        self
    }
}

// The weight is SMALLEST to LARGEST.
fn weight_fits(weight: i16) -> bool
    ensures { result ≡ weight_fits weight }
{
    (Weights::SMALLEST..=Weights::LARGEST).contains(&weight)
}

// What a value counts for by its weight.
fn weighted(weight: i16, value: u16) -> i32
    ensures { result ≡ weight *ℤ pos (value % value_count) }
{
    i32::from(weight) * i32::from(value % Values::COUNT)
}

// What the heat counts for: nothing, where it has no weight or there is none.
fn weighted_heat(weight: i16, edition: Edition) -> i32
    ensures { result ≡ weight *ℤ pos (heat_of (low_edition edition)) }
{
    match edition {
        Edition::Second(heat) if weight != 0 => weighted(weight, heat),
        _ => 0,
    }
}

// A report of that edition counts by the weight for heat.
#[tactic(auto, unfolding(laws::specs::Whole::equal))]
fn heat_counts(weight: i16, edition: Edition) -> bool
    ensures { result ≡ heat_counts weight (low_edition edition) }
{
    weight == 0 || matches!(edition, Edition::Second(_))
}

// What the heat that counts for most by its weight does count for.
fn best_heat(weight: i16) -> i32
    ensures { result ≡ heat_part weight }
{
    if 0 < weight {
        weighted(weight, Values::LARGEST)
    } else {
        0
    }
}

// The value of a column or a row that counts for most by its weight and lies inside the range, where one does.
fn corner(weight: i16, range: Range, index: u16) -> u16
    requires { index < columns }
    ensures { result ≡ corner weight range index }
{
    if 0 < weight {
        nearest(range.high, index)
    } else {
        nearest(range.low, index)
    }
}

// The value of a column or a row that is nearest to this one.
fn nearest(value: u16, index: u16) -> u16
    requires { index < columns }
    ensures { result ≡ nearest value index }
{
    let least = Grid::SIDE * index;
    value.clamp(least, least + (Grid::SIDE - 1))
}

// a is greater than b, or they are equal and the tie holds.
fn greater(a: i32, b: i32, tie: bool) -> bool
    ensures { result ≡ greater a b tie }
{
    b < a || (b == a && tie)
}

// The grid over loss and shake: COLUMNS by ROWS cells of SIDE by SIDE values.
#[derive(Clone, Copy)]
pub struct Grid {}

impl Grid {
    pub const SIDE: u16 = 256;

    pub const COLUMNS: u16 = 16;

    pub const ROWS: u16 = 16;

    pub const CELLS: u16 = Grid::COLUMNS * Grid::ROWS;

    // The columns, as a length.
    const ACROSS: usize = Grid::COLUMNS as usize;

    // The cell of some values, of which the low 12 bits are looked at.
    #[tactic(auto, unfolding(crate::specs::Cells::cell))]
    pub fn cell(values: Values) -> u8
        ensures { result ≡ cell (low values) }
    {
        let column = values.loss % Values::COUNT / Grid::SIDE;
        let row = values.shake % Values::COUNT / Grid::SIDE;
        (Grid::COLUMNS * row + column) as u8
    }
}
