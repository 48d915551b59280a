// An item for one slot, done over the rows that are lent: what the slot holds then, and the line that is printed.
#![tactic(auto)]

ghost use Rattle.std.specs.Prelude.{◌≡◌, cond, []};
ghost use Rattle.std.proofs.lemmas.List.Edits.{sets};
ghost use Rattle.text.specs.Text.{behind, r_line};
ghost use Rattle.window.specs.Rows.{row_count, standing};
ghost use Rattle.list.specs.Rows.{rows_in};
ghost use Rattle.serving.specs.Serving.{shown_text, served, Serves};

use items::Item;
use question::Question;
use refusal::Refusal;
use window::Rows;

// What a slot holds behind an item for it, and the place behind what that printed.
#[derive(Clone, Copy)]
pub struct Slot {
    pub question: Question,
    pub at: usize,
}

// Does an item for a slot that holds this question, over the rows that are lent: shows it, empties it, or sets a question.
pub fn serve<'a>(
    tag: u8,
    item: u64,
    value: &[u8],
    held: Question,
    rows: &'a Rows,
    out: &mut [u8],
    at: usize,
) -> Slot
    ensures { Serves (served tag item value.now held (standing (rows_in rows.now) row_count)) out.old at result.question result.at out.new }
{
    if tag == Item::SHOW {
        return Slot {
            question: held,
            at: put_shown(out, at, item, wire::byte(value, 0), held),
        };
    }
    if tag == Item::REMOVE {
        return Slot {
            question: slot::emptied(held),
            at: put_refusal(out, at, item, held.k == 0, Refusal::SlotEmpty.number()),
        };
    }
    let slot = wire::byte(value, 0);
    match slot::set_in(held, wire::byte(value, 1), journal::rule_in(value), rows) {
        Ok(found) => Slot {
            question: found.question,
            at: text::put_s(out, at, item, slot, found.steps),
        },
        Err(refusal) => Slot {
            question: held,
            at: text::put_r(out, at, item, refusal.number()),
        },
    }
}

// Prints the list of a slot, or that the slot is empty.
fn put_shown(out: &mut [u8], at: usize, item: u64, slot: u8, question: Question) -> usize
    ensures value { result ≡ behind at (shown_text item slot question) }
    ensures out_after { out.new ≡ sets out.old at (shown_text item slot question) }
{
    if question.k == 0 {
        return text::put_r(out, at, item, Refusal::SlotEmpty.number());
    }
    let names = question.names;
    let numbers = list::numbers_in(names);
    let scores = question.scores;
    text::put_q(out, at, slot, numbers, scores, question.len as usize)
}

// Prints the line of a refusal, if there is one.
pub fn put_refusal(out: &mut [u8], at: usize, item: u64, refused: bool, code: u8) -> usize
    ensures value { result ≡ behind at (cond refused (r_line item code) []) }
    ensures out_after { out.new ≡ sets out.old at (cond refused (r_line item code) []) }
{
    if refused {
        text::put_r(out, at, item, code)
    } else {
        at
    }
}
