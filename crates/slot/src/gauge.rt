// What a report must pass to touch a question, kept beside the slots: an entry reads a few bytes of each question that it
// leaves alone.
ghost use Rattle.std.specs.Prelude.{◌≡◌, ◌&&◌, map, eqb};
ghost use Rattle.values.specs.Range.{low};
ghost use Rattle.slot.specs.Gauges.{lowest_of, gauge_of, is_quiet, slot_count, in_use};

use crate::{last_name, least, lines_in};
use question::Question;
use ranking::{Rule, Weights};
use values::Values;

// The weights, the last score of the list, and the lowest name on it; 0 for that while the list has room, which no name is
// below.
#[derive(Clone, Copy)]
pub struct Gauge {
    pub weights: Weights,
    pub least: i32,
    pub low: u32,
}

impl Gauge {
    // A gauge for each slot.
    pub const SLOTS: usize = 32;

    pub fn of(question: Question) -> Gauge
        ensures { result ≡ gauge_of question }
    {
        let rule = question.rule;
        let weights = rule.weights;
        Gauge {
            weights,
            least: least(question),
            low: lowest(question),
        }
    }

    // A report of these values has no place on the list even if it counts, and none of a number up to `gone` is on it.
    #[tactic(auto, unfolding(crate::specs::Gauges::is_quiet))]
    pub fn quiet(self, gone: u32, values: Values) -> bool
        ensures { result ≡ is_quiet self gone (low values) }
    {
        !self.weights.might_pass(values, self.least) && last_name(gone) < u64::from(self.low)
    }

    // The gauge of each slot.
    pub fn of_slots(slots: [Question; Gauge::SLOTS]) -> [Gauge; Gauge::SLOTS]
        ensures { result ≡ map gauge_of slots }
    {
        slots.map(Gauge::of)
    }

    // How many slots there are up to the last one that has a k or a line.
    pub fn in_use(slots: [Question; Gauge::SLOTS]) -> usize
        ensures { result ≡ in_use slot_count slots }
    {
        for last in (0..Gauge::SLOTS).rev() {
            if !idle(slots[last].k, slots[last].len) {
                return last + 1;
            }
        }
        0
    }
}

// The lowest name on the list, or 0 while it has room.
fn lowest(question: Question) -> u32
    ensures { result ≡ lowest_of question }
{
    if question.len < question.k {
        return 0;
    }
    let names = question.names;
    let mut low = u32::MAX;
    for name in &names[..lines_in(question.len)] {
        low = low.min(*name);
    }
    low
}

// A slot with no k and no lines: no report changes it.
fn idle(k: u8, len: u8) -> bool
    ensures { result ≡ (eqb k 0 && eqb len 0) }
{
    k == 0 && len == 0
}
