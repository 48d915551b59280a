// The lines that the log program prints, as bytes in a buffer that a caller lends.
// Every function stores its text from any place on and answers the place behind it, so that one call follows another.
// What lies past the buffer's end is not stored; a place that no usize holds is answered as the largest one.
#![tactic(auto)]

ghost use Rattle.std.specs.Prelude.{◌≡◌, [], ◌∷◌, take};
ghost use Rattle.std.proofs.lemmas.List.Edits.{sets};
ghost use Rattle.text.specs.Text.{decimal, signed_decimal, spaced, s_line, r_line, entry_text, entries_text, q_line, entries_of, behind};

// How long the texts get, in bytes.
#[derive(Clone, Copy)]
pub struct Text {}

impl Text {
    // A number of 64 bits.
    pub const NUMBER: usize = 20;

    // A score, with its minus.
    pub const SCORE: usize = 11;

    // The three kinds of lines, with their ends.
    pub const S_LONGEST: usize = 33;

    pub const R_LONGEST: usize = 27;

    pub const Q_LONGEST: usize = 377;

    // The most entries of a Q line.
    pub const ENTRIES: usize = 16;
}

// Stores a number.
pub fn put_decimal(buf: &mut [u8], at: usize, n: u64) -> usize
    ensures value { result ≡ behind at (decimal n) }
    ensures buf_after { buf.new ≡ sets buf.old at (decimal n) }
{
    put_text(buf, at, spell(&mut [0; Text::NUMBER], n))
}

// Stores a number that may be negative.
#[tactic(auto, using(crate::proofs::Places::in_a_row, crate::proofs::Decimal::signed_minus, crate::proofs::Decimal::signed_plain))]
pub fn put_signed(buf: &mut [u8], at: usize, z: i32) -> usize
    ensures value { result ≡ behind at (signed_decimal z) }
    ensures buf_after { buf.new ≡ sets buf.old at (signed_decimal z) }
{
    let next = if z < 0 { put_byte(buf, at, b'-') } else { at };
    put_decimal(buf, next, u64::from(z.unsigned_abs()))
}

// Stores the line of a search: the item, the slot and the steps.
#[tactic(auto, using(crate::proofs::Places::in_a_row), unfolding(crate::specs::Text::s_line))]
pub fn put_s(buf: &mut [u8], at: usize, item: u64, slot: u8, steps: u16) -> usize
    ensures value { result ≡ behind at (s_line item slot steps) }
    ensures buf_after { buf.new ≡ sets buf.old at (s_line item slot steps) }
{
    let head = put_byte(buf, at, b'S');
    let first = put_spaced(buf, head, item);
    let second = put_spaced(buf, first, slot as u64);
    let third = put_spaced(buf, second, steps as u64);
    put_byte(buf, third, b'\n')
}

// Stores the line of a refusal: the item and the refusal's number.
#[tactic(auto, using(crate::proofs::Places::in_a_row), unfolding(crate::specs::Text::r_line))]
pub fn put_r(buf: &mut [u8], at: usize, item: u64, code: u8) -> usize
    ensures value { result ≡ behind at (r_line item code) }
    ensures buf_after { buf.new ≡ sets buf.old at (r_line item code) }
{
    let head = put_byte(buf, at, b'R');
    let first = put_spaced(buf, head, item);
    let second = put_spaced(buf, first, code as u64);
    put_byte(buf, second, b'\n')
}

// Stores the line of a question's list: the slot, and the first n of the numbers with their scores, or all of them where
// there are fewer.
// Stays: numbers and scores in two arrays, as a question's list keeps them; pairs would cost a copy of both.
#[tactic(auto, using(crate::proofs::Places::in_a_row, crate::proofs::Lists::q_line_of))]
pub fn put_q(
    buf: &mut [u8],
    at: usize,
    slot: u8,
    numbers: [u32; Text::ENTRIES],
    scores: [i32; Text::ENTRIES],
    n: usize,
) -> usize
    ensures value { result ≡ behind at (q_line slot (take n (entries_of numbers scores))) }
    ensures buf_after { buf.new ≡ sets buf.old at (q_line slot (take n (entries_of numbers scores))) }
{
    let shown = n.min(Text::ENTRIES);
    let head = put_byte(buf, at, b'Q');
    let first = put_spaced(buf, head, slot as u64);
    let second = put_spaced(buf, first, shown as u64);
    let third = put_entries(buf, second, &numbers[..shown], &scores[..shown]);
    put_byte(buf, third, b'\n')
}

// Stores numbers, each with the score beside it.
fn put_entries(buf: &mut [u8], at: usize, numbers: &[u32], scores: &[i32]) -> usize
    ensures value { result ≡ behind at (entries_text (entries_of numbers.now scores.now)) }
    ensures buf_after { buf.new ≡ sets buf.old at (entries_text (entries_of numbers.now scores.now)) }
{
    let mut next = at;
    for (number, score) in numbers.iter().zip(scores) {
        next = put_entry(buf, next, *number, *score);
    }
    next
}

// Stores a number and a score.
#[tactic(auto, using(crate::proofs::Places::in_a_row), unfolding(crate::specs::Text::entry_text))]
fn put_entry(buf: &mut [u8], at: usize, number: u32, score: i32) -> usize
    ensures value { result ≡ behind at (entry_text (record { number = number; score = score })) }
    ensures buf_after { buf.new ≡ sets buf.old at (entry_text (record { number = number; score = score })) }
{
    let first = put_spaced(buf, at, number as u64);
    let second = put_byte(buf, first, b':');
    put_signed(buf, second, score)
}

// Stores a space and a number.
#[tactic(auto, using(crate::proofs::Places::in_a_row), unfolding(crate::specs::Text::spaced))]
fn put_spaced(buf: &mut [u8], at: usize, n: u64) -> usize
    ensures value { result ≡ behind at (spaced n) }
    ensures buf_after { buf.new ≡ sets buf.old at (spaced n) }
{
    let next = put_byte(buf, at, b' ');
    put_decimal(buf, next, n)
}

// Stores a byte.
fn put_byte(buf: &mut [u8], at: usize, b: u8) -> usize
    ensures value { result ≡ behind at (b ∷ []) }
    ensures buf_after { buf.new ≡ sets buf.old at (b ∷ []) }
{
    put_text(buf, at, &[b])
}

// Stores a text.
#[tactic(auto, unfolding(crate::specs::Text::behind))]
fn put_text(buf: &mut [u8], at: usize, text: &[u8]) -> usize
    ensures value { result ≡ behind at text.now }
    ensures buf_after { buf.new ≡ sets buf.old at text.now }
{
    wire::put_all(buf, at, text);
    at.saturating_add(text.len())
}

// The digits of n, which stand at the end of `room`.
// Stays: by hand, for `value` and `buf_after` of `put_decimal`; `write!` and `fmt::InlineText` don't promise that all of n is written.
fn spell(room: &mut [u8; Text::NUMBER], n: u64) -> &[u8]
    ensures { result.now ≡ decimal n }
{
    let mut rest = n;
    for i in (0..Text::NUMBER).rev() {
        if rest < 10 {
            room[i] = b'0' + rest as u8;
            return &room[i..];
        }
        room[i] = b'0' + (rest % 10) as u8;
        rest /= 10;
    }
    room
}
